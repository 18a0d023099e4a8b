//! The moments at which a zone's offset changed, one by one.
//! What it changed to is said in `zone`.
ghost use Rattle.std.specs.Prelude.{◌≡◌, ◌<◌, ◌/◌, length, option_map};
ghost use Rattle.resb.specs.Views.{view_words};
ghost use Rattle.resb_zoneinfo.specs.LongMoments.{words_or_none, long_moment};

use resb::binary::helpers::{I32View, WordView};

/// The moments at which a zone's offset changed, in seconds since 1970, in their order: those
/// before the range of 32 bits, those within it, and those after it.
#[derive(Clone, Copy)]
pub struct Transitions<'de> {
    /// Two words for each moment, the upper one first.
    pub before32: Option<WordView<'de>>,
    /// One number for each moment.
    pub within32: Option<I32View<'de>>,
    /// Two words for each moment, the upper one first.
    pub after32: Option<WordView<'de>>,
}

impl<'de> Transitions<'de> {
    ghost use Rattle.std.specs.Prelude.{◌≡◌, ◌<◌, length, IsTrue, ◌↔◌};
    ghost use Rattle.resb_zoneinfo.specs.Transitions.{HasTransitions, transition_count, transition};

    /// Whether there are so many, and no word is left over.
    pub fn are(&self, count: usize) -> bool
        ensures { IsTrue result ↔ HasTransitions self.now count }
    {
        let early = words_len(self.before32);
        let late = words_len(self.after32);
        let within = match self.within32 {
            Some(view) => view.len(),
            None => 0,
        };
        if early % 2 != 0 || late % 2 != 0 || count < early / 2 {
            return false;
        }
        let rest = count - early / 2;
        within <= rest && rest - within == late / 2
    }

    /// The moment with this number.
    #[tactic(auto, unfolding(crate::specs::Transitions::transition))]
    pub fn moment(&self, number: usize) -> i64
        requires { number < transition_count self.now }
        ensures { result ≡ transition self.now number }
    {
        let early = words_len(self.before32) / 2;
        if number < early {
            return long_at(self.before32, number);
        }
        let rest = number - early;
        let Some(view) = self.within32 else {
            return long_at(self.after32, rest);
        };
        if rest < view.len() {
            i64::from(view.item(rest))
        } else {
            long_at(self.after32, rest - view.len())
        }
    }
}

/// How many words there are, none where there is no view.
fn words_len(words: Option<WordView<'_>>) -> usize
    ensures { result ≡ length (words_or_none (option_map view_words words.entry)) }
{
    match words {
        Some(view) => view.len(),
        None => 0,
    }
}

/// The moment with this number among words, two for each.
fn long_at(words: Option<WordView<'_>>, number: usize) -> i64
    requires { number < length (words_or_none (option_map view_words words)) / 2 }
    ensures { result ≡ long_moment (words_or_none (option_map view_words words.entry)) number }
{
    let Some(view) = words else {
        return 0;
    };
    let _bound = view.len();
    let upper = u64::from(view.item(2 * number));
    let lower = u64::from(view.item(2 * number + 1));
    (upper * 4_294_967_296 + lower).cast_signed()
}
