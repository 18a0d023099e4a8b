//! Numbers among a file's bytes, and parts of them. No other module indexes a file's bytes.
//! Where a number stands is the business of the module that asks for it.
ghost use Rattle.std.specs.Prelude.{◌≡◌, ◌+◌, ◌*◌, ◌/◌, ◌<◌, ◌≤◌, [], ◌∷◌, ◌++◌, length, slice_get};
ghost use Rattle.std.specs.Prelude.{slice_index, slice_range, take, drop, Some, None, MatchOption};
ghost use Rattle.std.specs.Prelude.{IfSome};
ghost use Rattle.resb_format.specs.Bytes.{units_of, words_of, part};
ghost use Rattle.resb_format.specs.Bytes as spelled;

/// The 16-bit unit with this number.
#[tactic(auto, using(crate::proofs::Spelled::units_at))]
pub fn unit_at(bytes: &[u8], number: usize) -> u16
    requires { number < length bytes.now / 2 }
    ensures { result ≡ slice_index (units_of bytes.now) number }
{
    u16::from_le_bytes([bytes[2 * number], bytes[2 * number + 1]])
}

/// The 32-bit word with this number.
#[tactic(auto, using(crate::proofs::Spelled::words_at))]
pub fn word_at(bytes: &[u8], number: usize) -> u32
    requires { number < length bytes.now / 4 }
    ensures { result ≡ slice_index (words_of bytes.now) number }
{
    let place = 4 * number;
    u32::from_le_bytes([
        bytes[place],
        bytes[place + 1],
        bytes[place + 2],
        bytes[place + 3],
    ])
}

/// The byte at this place.
pub fn byte_at(bytes: &[u8], place: usize) -> u8
    requires { place < length bytes.now }
    ensures { result ≡ slice_index bytes.now place }
{
    bytes[place]
}

/// The two bytes from this place on.
pub fn two_at(bytes: &[u8], place: usize) -> [u8; 2]
    requires { place + 2 ≤ length bytes.now }
    ensures { result ≡ slice_range bytes.now place (place + 2) }
{
    [bytes[place], bytes[place + 1]]
}

/// The four bytes from this place on.
pub fn four_at(bytes: &[u8], place: usize) -> [u8; 4]
    requires { place + 4 ≤ length bytes.now }
    ensures { result ≡ slice_range bytes.now place (place + 4) }
{
    [
        bytes[place],
        bytes[place + 1],
        bytes[place + 2],
        bytes[place + 3],
    ]
}

/// The 16-bit unit with this number, in big-endian order where `is_big` says so.
pub fn unit_in(bytes: &[u8], number: usize, is_big: bool) -> u16
    requires { number < length bytes.now / 2 }
    ensures { result ≡ spelled.unit_in is_big bytes.now number }
{
    if is_big {
        u16::from_be_bytes([bytes[2 * number], bytes[2 * number + 1]])
    } else {
        unit_at(bytes, number)
    }
}

/// The 16-bit unit with this number, if it lies inside.
#[tactic(auto, using(crate::proofs::Inside::one_unit))]
pub fn some_unit(bytes: &[u8], number: usize) -> Option<u16>
    ensures { result ≡ slice_get (units_of bytes.now) number }
{
    if number >= bytes.len() / 2 {
        return None;
    }
    Some(unit_at(bytes, number))
}

/// The 32-bit word with this number, if it lies inside.
#[tactic(auto, using(crate::proofs::Inside::one_word))]
pub fn some_word(bytes: &[u8], number: usize) -> Option<u32>
    ensures { result ≡ slice_get (words_of bytes.now) number }
{
    if number >= bytes.len() / 4 {
        return None;
    }
    Some(word_at(bytes, number))
}

/// The first unit, and the bytes behind it.
#[tactic(auto, using(crate::proofs::Spelled::unit_first, crate::proofs::Spelled::no_unit))]
pub fn first_unit(bytes: &[u8]) -> Option<(u16, &[u8])>
    ensures { let units = units_of bytes.now in
        MatchOption result (units ≡ []) (λ r. units ≡ r.0 ∷ units_of r.1.now) }
{
    if bytes.len() < 2 {
        return None;
    }
    let unit = u16::from_le_bytes([bytes[0], bytes[1]]);
    let (_, rest) = bytes.split_at(2);
    Some((unit, rest))
}

/// The first four units, and the bytes behind them, if so many stand there.
#[tactic(auto, using(crate::proofs::Spelled::four_first, crate::proofs::Spelled::units_length))]
pub fn first_four_units(bytes: &[u8]) -> Option<([u16; 4], &[u8])>
    ensures { let units = units_of bytes.now in
        MatchOption result (length units < 4)
        (λ r. (length r.0 ≡ 4) × (units ≡ r.0 ++ units_of r.1.now)) }
{
    if bytes.len() < 8 {
        return None;
    }
    let units = [
        unit_at(bytes, 0),
        unit_at(bytes, 1),
        unit_at(bytes, 2),
        unit_at(bytes, 3),
    ];
    let (_, rest) = bytes.split_at(8);
    Some((units, rest))
}

/// The first word, and the bytes behind it.
#[tactic(auto, using(crate::proofs::Spelled::first_word_is, crate::proofs::Spelled::no_first_word))]
pub fn first_word(bytes: &[u8]) -> Option<(u32, &[u8])>
    ensures { let words = words_of bytes.now in
        MatchOption result (words ≡ []) (λ r. words ≡ r.0 ∷ words_of r.1.now) }
{
    if bytes.len() < 4 {
        return None;
    }
    let word = u32::from_le_bytes([bytes[0], bytes[1], bytes[2], bytes[3]]);
    let (_, rest) = bytes.split_at(4);
    Some((word, rest))
}

/// The bytes before this place and those from it on, if no more than all of them stand before it.
pub fn cut_at(bytes: &[u8], place: usize) -> Option<(&[u8], &[u8])>
    ensures parts { MatchOption result (length bytes.now < place)
        (λ r. (r.0.now ≡ take place bytes.now) × (r.1.now ≡ drop place bytes.now)) }
    ensures inside { IfSome result (λ r. place ≤ length bytes.now) }
{
    if place > bytes.len() {
        return None;
    }
    Some(bytes.split_at(place))
}

/// So many bytes from this place on, if they lie inside.
#[tactic(auto, using(crate::proofs::Inside::part_cut))]
pub fn some_bytes(bytes: &[u8], from: usize, count: usize) -> Option<&[u8]>
    ensures { let cut = part bytes.now from count in
        MatchOption result (cut ≡ None) (λ b. cut ≡ Some b.now) }
{
    if from > bytes.len() || count > bytes.len() - from {
        return None;
    }
    let (_, rest) = bytes.split_at(from);
    let (front, _) = rest.split_at(count);
    Some(front)
}

/// The bytes of so many units from this unit on, if they lie inside.
#[tactic(auto, using(crate::proofs::Inside::units_cut))]
pub fn some_units(bytes: &[u8], from: usize, count: usize) -> Option<&[u8]>
    ensures value { let cut = part (units_of bytes.now) from count in
        MatchOption result (cut ≡ None) (λ b. cut ≡ Some (units_of b.now)) }
    ensures whole { MatchOption result
        (length (units_of bytes.now) < from + count)
        (λ b. length b.now ≡ 2 * count) }
{
    let all = bytes.len() / 2;
    if from > all || count > all - from {
        return None;
    }
    let (_, rest) = bytes.split_at(2 * from);
    let (front, _) = rest.split_at(2 * count);
    Some(front)
}

/// The bytes of so many words from this word on, if they lie inside.
#[tactic(auto, using(crate::proofs::Inside::words_cut))]
pub fn some_words(bytes: &[u8], from: usize, count: usize) -> Option<&[u8]>
    ensures value { let cut = part (words_of bytes.now) from count in
        MatchOption result (cut ≡ None) (λ b. cut ≡ Some (words_of b.now)) }
    ensures whole { MatchOption result
        (length (words_of bytes.now) < from + count)
        (λ b. b.now ≡ take (4 * count) (drop (4 * from) bytes.now)) }
{
    let all = bytes.len() / 4;
    if from > all || count > all - from {
        return None;
    }
    let (_, rest) = bytes.split_at(4 * from);
    let (front, _) = rest.split_at(4 * count);
    Some(front)
}
