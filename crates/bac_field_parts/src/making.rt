//! Making the octets of what fields say.

ghost use Rattle.std.specs.Prelude.{◌≡◌, ◌≤◌, ◌<◌, ◌+◌, ◌*◌, ◌^◌, ◌++◌, ◌∷◌, [], true, ◌&&◌, ◌||◌, ◌⊎◌, ℕ, List, Bool, Option, None, Some, not, length, IsTrue, IfOk, IfErr};
ghost use Rattle.std.specs.Option.{option_map_or};
ghost use Rattle.std.specs.List.{flat_map};
ghost use Rattle.bac_tag.specs.Octets.{Extends};
ghost use Rattle.bac_tag.specs.Spelling.{Joined, OneOf};
ghost use Rattle.bac_productions.specs.Productions.{Optional, Items};
ghost use Rattle.bac_field_parts.specs.Symbols.{Symbol, Language, Lawful, IsStop, has, disjoint, symbols_in, taken_symbols, Made, IfStop, lead_in, behind};
ghost use Rattle.bac_field_parts.specs.Laws.Parts.{either_said, pair_sound, maybe_sound, either_sound, list_sound};
ghost use Rattle.bac_field_parts.specs.Laws.Leaves.{end_lawful, nothing_inhabited};

use crate::field::Field;

/// What of a field is hopeless.
#[derive(Clone, Copy)]
pub enum Part {
    /// Its name.
    Name,
    /// Its number.
    Number,
    /// Its contents.
    Contents,
}

/// The place of what is hopeless.
#[derive(Clone, Copy)]
pub struct Stop {
    /// The index of the field.
    pub index: usize,
    /// What of it is hopeless.
    pub part: Part,
}

/// Why nothing is made.
#[derive(Clone, Copy)]
pub enum Fault {
    /// Memory was refused.
    OutOfMemory,
    /// No fields of the part continue so.
    Stop(Stop),
}

impl Fault {
    /// Returns the fault that this of the first field is hopeless.
    #[inline(always)]
    pub fn at(part: Part) -> Fault
        ensures { result ≡ Fault.Stop (record { index = 0; part = part }) }
    {
        Fault::Stop(Stop { index: 0, part })
    }

    /// Returns the fault as it is seen that many fields earlier.
    #[inline(always)]
    pub fn behind(self, fields: usize) -> Fault
        requires { IfStop self (λ place. place + 3 * fields < 3 * 2 ^ 64) }
        ensures { result ≡ behind fields self }
    {
        match self {
            Fault::OutOfMemory => Fault::OutOfMemory,
            Fault::Stop(Stop { index, part }) => Fault::Stop(Stop {
                index: index + fields,
                part,
            }),
        }
    }
}

/// Returns the number of the name of the first field, or None if there is no field.
#[inline(always)]
pub fn lead(fields: &[Field]) -> Option<u32>
    ensures { result ≡ lead_in fields.now }
{
    Some(fields.first()?.name)
}

/// What is made of fields.
pub trait FromFields: Drop {
    /// The values that are said.
    ghost Value: { Type 0 };

    /// The symbols that say a value.
    ghost said: { Self → Value → List Symbol };

    /// The octets that spell it.
    ghost spells: { Self → Value → List ℕ → Type 0 };

    /// What it begins with.
    ghost leads: { Self → List (Option ℕ) };

    /// Whether the next name says what comes next.
    ghost is_sound: { Self → Bool };

    /// Whether the last symbol is the one after the last field.
    ghost at_end: { Self → Bool };

    /// Returns true if it begins so.
    fn begins(&self, lead: Option<u32>) -> bool
        ensures { result ≡ has (leads self.now) lead };

    /// Appends the canonical octets of what a front of the fields says, and returns how many fields that front has. If
    /// it fails, `out` may hold some octets more.
    fn make(&self, fields: &[Field], octets: &[u8], out: &mut Vec<u8>) -> Result<usize, Fault>
        requires { IsTrue (is_sound self.now) }
        ensures made { IfOk result (λ taken. Made (said self.now) (spells self.now) (symbols_in octets.now fields.now) (taken_symbols (at_end self.now) taken) out.old.items out.new.items) }
        ensures within { IfOk result (λ taken. taken ≤ length fields.now) }
        ensures stopped { IfErr result (λ fault. IfStop fault (IsStop (Language (said self.now) (spells self.now)) (symbols_in octets.now fields.now))) }
        ensures near { IfErr result (λ fault. IfStop fault (λ place. place ≤ 3 * length fields.now)) }
        ensures kept { Extends out.old.items out.new.items };

    ghost lawful: { (part : Self) → IsTrue (is_sound part) → Lawful (Language (said part) (spells part)) (leads part) };
}

/// One part after the other.
impl<A: FromFields, B: FromFields> FromFields for (A, B) {
    ghost Value = { A.Value × B.Value };

    ghost said = { λ part value. A.said part.0 value.0 ++ B.said part.1 value.1 };

    ghost spells = { λ part. Joined (A.spells part.0) (B.spells part.1) };

    ghost leads = { λ part. A.leads part.0 };

    ghost is_sound = { λ part. A.is_sound part.0 && (B.is_sound part.1 && not (A.at_end part.0)) };

    ghost at_end = { λ part. B.at_end part.1 };

    #[inline(always)]
    fn begins(&self, lead: Option<u32>) -> bool {
        self.0.begins(lead)
    }

    #[inline(always)]
    fn make(&self, fields: &[Field], octets: &[u8], out: &mut Vec<u8>) -> Result<usize, Fault> {
        let first = self.0.make(fields, octets, out)?;
        match self.1.make(&fields[first..], octets, out) {
            Ok(second) => Ok(first + second),
            Err(fault) => Err(fault.behind(first)),
        }
    }

    ghost lawful = { λ part. pair_sound (A.said part.0) (B.said part.1) (A.spells part.0) (B.spells part.1) (A.is_sound part.0) (B.is_sound part.1) (A.at_end part.0) (A.leads part.0) (B.leads part.1) (A.lawful part.0) (B.lawful part.1) };
}

/// What is borrowed.
impl<P: FromFields> FromFields for &P {
    ghost Value = { P.Value };

    ghost said = { λ part. P.said part.now };

    ghost spells = { λ part. P.spells part.now };

    ghost leads = { λ part. P.leads part.now };

    ghost is_sound = { λ part. P.is_sound part.now };

    ghost at_end = { λ part. P.at_end part.now };

    #[inline(always)]
    fn begins(&self, lead: Option<u32>) -> bool {
        P::begins(*self, lead)
    }

    #[inline(always)]
    fn make(&self, fields: &[Field], octets: &[u8], out: &mut Vec<u8>) -> Result<usize, Fault> {
        P::make(*self, fields, octets, out)
    }

    ghost lawful = { λ part. P.lawful part.now };
}

/// A part that may be absent, and the part after it.
#[derive(Drop)]
pub struct Maybe<P, T>(pub P, pub T);

impl<P: FromFields, T: FromFields> FromFields for Maybe<P, T> {
    ghost Value = { Option P.Value × T.Value };

    ghost said = { λ part value. option_map_or (P.said part.0) value.0 [] ++ T.said part.1 value.1 };

    ghost spells = { λ part. Joined (Optional (P.spells part.0)) (T.spells part.1) };

    ghost leads = { λ part. P.leads part.0 ++ T.leads part.1 };

    ghost is_sound = { λ part. P.is_sound part.0 && (T.is_sound part.1 && (not (P.at_end part.0) && disjoint (P.leads part.0) (T.leads part.1))) };

    ghost at_end = { λ part. T.at_end part.1 };

    #[inline(always)]
    fn begins(&self, lead: Option<u32>) -> bool {
        self.0.begins(lead) || self.1.begins(lead)
    }

    #[inline(always)]
    fn make(&self, fields: &[Field], octets: &[u8], out: &mut Vec<u8>) -> Result<usize, Fault> {
        if self.0.begins(lead(fields)) {
            (&self.0, &self.1).make(fields, octets, out)
        } else {
            self.1.make(fields, octets, out)
        }
    }

    ghost lawful = { λ part. maybe_sound (P.said part.0) (T.said part.1) (P.spells part.0) (T.spells part.1) (P.is_sound part.0) (T.is_sound part.1) (P.at_end part.0) (P.leads part.0) (T.leads part.1) (P.lawful part.0) (T.lawful part.1) };
}

/// Either of two parts, by what comes next.
#[derive(Drop)]
pub struct Either<P, Q>(pub P, pub Q);

impl<P: FromFields, Q: FromFields> FromFields for Either<P, Q> {
    ghost Value = { P.Value ⊎ Q.Value };

    ghost said = { λ part. either_said (P.said part.0) (Q.said part.1) (P.spells part.0) (Q.spells part.1) };

    ghost spells = { λ part. OneOf (P.spells part.0) (Q.spells part.1) };

    ghost leads = { λ part. P.leads part.0 ++ Q.leads part.1 };

    ghost is_sound = { λ part. P.is_sound part.0 && (Q.is_sound part.1 && (not (P.at_end part.0 && not (Q.at_end part.1)) && (not (Q.at_end part.1 && not (P.at_end part.0)) && disjoint (P.leads part.0) (Q.leads part.1)))) };

    ghost at_end = { λ part. P.at_end part.0 };

    #[inline(always)]
    fn begins(&self, lead: Option<u32>) -> bool {
        self.0.begins(lead) || self.1.begins(lead)
    }

    #[inline(always)]
    fn make(&self, fields: &[Field], octets: &[u8], out: &mut Vec<u8>) -> Result<usize, Fault> {
        if self.0.begins(lead(fields)) {
            self.0.make(fields, octets, out)
        } else {
            self.1.make(fields, octets, out)
        }
    }

    ghost lawful = { λ part. either_sound (P.said part.0) (Q.said part.1) (P.spells part.0) (Q.spells part.1) (P.is_sound part.0) (Q.is_sound part.1) (P.at_end part.0) (Q.at_end part.1) (P.leads part.0) (Q.leads part.1) (P.lawful part.0) (Q.lawful part.1) };
}

/// Parts that are said as long as one begins, and the part after them.
#[derive(Drop)]
pub struct Each<P, T>(pub P, pub T);

impl<P: FromFields, T: FromFields> FromFields for Each<P, T> {
    ghost Value = { List P.Value × T.Value };

    ghost said = { λ part value. flat_map (P.said part.0) value.0 ++ T.said part.1 value.1 };

    ghost spells = { λ part. Joined (Items (P.spells part.0)) (T.spells part.1) };

    ghost leads = { λ part. P.leads part.0 ++ T.leads part.1 };

    ghost is_sound = { λ part. P.is_sound part.0 && (T.is_sound part.1 && (not (P.at_end part.0) && disjoint (P.leads part.0) (T.leads part.1))) };

    ghost at_end = { λ part. T.at_end part.1 };

    #[inline(always)]
    fn begins(&self, lead: Option<u32>) -> bool {
        self.0.begins(lead) || self.1.begins(lead)
    }

    fn make(&self, fields: &[Field], octets: &[u8], out: &mut Vec<u8>) -> Result<usize, Fault> {
        let mut taken = 0;
        while self.0.begins(lead(&fields[taken..])) {
            match self.0.make(&fields[taken..], octets, out) {
                Ok(item) => taken += item,
                Err(fault) => return Err(fault.behind(taken)),
            }
        }
        match self.1.make(&fields[taken..], octets, out) {
            Ok(rest) => Ok(taken + rest),
            Err(fault) => Err(fault.behind(taken)),
        }
    }

    ghost lawful = { λ part. list_sound (P.said part.0) (T.said part.1) (P.spells part.0) (T.spells part.1) (P.is_sound part.0) (T.is_sound part.1) (P.at_end part.0) (P.leads part.0) (T.leads part.1) (P.lawful part.0) (T.lawful part.1) };
}

/// The end of the fields.
#[derive(Drop)]
pub struct End;

impl FromFields for End {
    ghost use Rattle.bac_field_parts.specs.Symbols.{end_said, no_octets};

    ghost Value = { Unit {0} };

    ghost said = { λ part. end_said };

    ghost spells = { λ part. no_octets };

    ghost leads = { λ part. None ∷ [] };

    ghost is_sound = { λ part. true };

    ghost at_end = { λ part. true };

    #[inline(always)]
    fn begins(&self, lead: Option<u32>) -> bool {
        lead.is_none()
    }

    #[inline(always)]
    fn make(&self, fields: &[Field], _octets: &[u8], _out: &mut Vec<u8>) -> Result<usize, Fault> {
        if fields.is_empty() {
            Ok(0)
        } else {
            Err(Fault::at(Part::Name))
        }
    }

    ghost lawful = { λ part sound. end_lawful no_octets nothing_inhabited };
}
