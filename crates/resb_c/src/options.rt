//! The options of a call, as the caller in C gives them, and what they ask for.
//! What is done by them is in `compiling` and `dumping`.
ghost use Rattle.std.specs.Prelude.{◌≡◌, None, Some, MatchResult};
ghost use Rattle.resb_c.specs.Options.{limit_in, print_form_in, text_form_in};
ghost use Rattle.resb_c.specs.declared.fault.Fault.TheVariants.{BadOptions};

use crate::fault::Fault;
use resb_compile::TextForm;
use resb_lines::PrintForm;

/// The bytes of the options: what `size` has to be.
const OPTIONS_SIZE: usize = 56;

/// The options of a call. A field of zeros asks for nothing.
#[derive(Clone, Copy)]
#[repr(C)]
pub struct ResbOptions<'a> {
    /// The bytes of this struct.
    pub size: usize,
    /// The form: 0 is the plain text form, 1 ICU's own, and 2 JSON.
    pub form: u32,
    /// Whether a file is compact, as `genrb` writes it: 0 says that it isn't.
    pub compact: u32,
    /// The most bytes that the call may make; 0 sets no limit.
    pub limit: u64,
    /// The bytes of a pool bundle; none is given where there are none.
    pub pool: &'a [u8],
    /// The name of a bundle.
    pub name: &'a [u8],
}

impl ResbOptions<'_> {
    /// The form of a text that is read.
    pub(crate) fn text_form(&self) -> Result<TextForm, Fault>
        ensures { MatchResult result (λ form. text_form_in self.now ≡ Some form)
            (λ e. (e ≡ BadOptions) × (text_form_in self.now ≡ None)) }
    {
        if self.size != OPTIONS_SIZE {
            return Err(Fault::BadOptions);
        }
        match self.form {
            0 => Ok(TextForm::Plain),
            1 => Ok(TextForm::Icu),
            _ => Err(Fault::BadOptions),
        }
    }

    /// The form in which a bundle is printed.
    pub(crate) fn print_form(&self) -> Result<PrintForm, Fault>
        ensures { MatchResult result (λ form. print_form_in self.now ≡ Some form)
            (λ e. (e ≡ BadOptions) × (print_form_in self.now ≡ None)) }
    {
        if self.size != OPTIONS_SIZE {
            return Err(Fault::BadOptions);
        }
        match self.form {
            0 => Ok(PrintForm::Plain),
            1 => Ok(PrintForm::Icu),
            2 => Ok(PrintForm::Json),
            _ => Err(Fault::BadOptions),
        }
    }

    /// The limit, if one is set.
    pub(crate) fn limit(&self) -> Option<u64>
        ensures { result ≡ limit_in self.now }
    {
        if self.limit == 0 {
            None
        } else {
            Some(self.limit)
        }
    }
}
