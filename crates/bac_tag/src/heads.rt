//! Tag heads.

ghost use Rattle.std.specs.Prelude.{◌↔◌, IsTrue};
ghost use Rattle.bac_tag.specs.Heads.{IsValid};

/// A tag head: what is before the contents of an element (clause 20.2.1). It has 1 to 7 octets:
///
/// 1. the initial octet: the number in bits 7 to 4, or 15 if it is in the next octet; the class in bit 3 (0
///    application, 1 context); the LVT in bits 2 to 0;
/// 2. the number, if bits 7 to 4 are 15;
/// 3. the length, if the LVT is 5: one octet 0 to 253; or FE and two octets; or FF and four octets, the most
///    significant first. An LVT of 0 to 4 is itself the length.
///
/// In the context class an LVT of 6 is an opening tag, and of 7 a closing tag. In the application class the LVT
/// of number 1 is the Boolean: 0 false, 1 true.
#[derive(Clone, Copy, Debug, PartialEq, Eq)]
pub enum TagHead {
    /// Application class with this number, 0 or 2 to 12. `len` octets of contents follow.
    App { number: u8, len: u32 },
    /// Application class, number 1: a Boolean, which is in the head itself.
    AppBool(bool),
    /// Context class with this number, 0 to 254. `len` octets of contents follow.
    Ctx { number: u8, len: u32 },
    /// Opens a group of this number, 0 to 254.
    Open(u8),
    /// Closes a group of this number, 0 to 254.
    Close(u8),
}

impl TagHead {
    /// Returns true if the number is one that the class uses: 0 or 2 to 12 in `App`, and 0 to 254 in `Ctx`, `Open` and
    /// `Close`. `AppBool` is always valid.
    pub fn is_valid(&self) -> bool
        ensures { IsTrue result ↔ IsValid self.now }
    {
        match *self {
            TagHead::App { number, .. } => number <= 12 && number != 1,
            TagHead::AppBool(_) => true,
            TagHead::Ctx { number, .. } | TagHead::Open(number) | TagHead::Close(number) => {
                number <= 254
            }
        }
    }
}
