//! The fields of properties, their values, and why they have none (clause 21).

use crate::open_values::OpenValue;
use crate::parts::HasFields;
use crate::values::{Optional, Typed, Under, unsigned};
use bac_field_parts::cursor::Cursor;
use bac_field_parts::edges::{Closing, Edge, Opening};
use bac_field_parts::forms::One;
use bac_field_parts::groups::OpenValueFields;
use bac_field_parts::leaves::Word;
use bac_field_parts::making::{Either, Fault, FromFields, Maybe};
use bac_field_parts::values::{NumberTyped, NumberUnder, number_typed, number_under};
use bac_field_parts::whole::{Message, Whole};
use bac_field_parts::{Field, Name};
use bac_service::{ErrorCause, PropertyReference, PropertyResult, PropertyValue, ReadResult};
use bac_value::layers::Unsigned32;
use bac_value::{Enumerated, Priority};

/// A property under a context tag with number P, and the index under one with number I, if one element is meant.
#[derive(Clone, Copy)]
pub(crate) struct Property<const P: u8, const I: u8> {
    /// The identifier of the property.
    pub(crate) property: u32,
    /// The index of the element.
    pub(crate) index: Option<u32>,
}

impl<const P: u8, const I: u8> HasFields for Property<P, I> {
    ghost use Rattle.bac_fields.specs.PropertyFields.{property_steps};

    ghost steps = { λ part. property_steps P I part.property part.index };

    #[inline(always)]
    fn tell(&self, cursor: Cursor, room: &mut [Field]) -> Option<Cursor> {
        let property = Under::<Enumerated, P>(Name::Property, Enumerated(self.property));
        (
            property,
            Optional::<_, I>(Name::Index, unsigned(self.index)),
        )
            .tell(cursor, room)
    }
}

/// The class and the code of an error.
#[derive(Clone, Copy)]
pub(crate) struct Cause {
    /// The class.
    pub(crate) class: u32,
    /// The code.
    pub(crate) code: u32,
}

impl HasFields for Cause {
    ghost use Rattle.bac_fields.specs.PropertyFields.{cause_steps};

    ghost steps = { λ cause. cause_steps cause.class cause.code };

    #[inline(always)]
    fn tell(&self, cursor: Cursor, room: &mut [Field]) -> Option<Cursor> {
        let class = Typed(Name::ErrorClass, Enumerated(self.class));
        (class, Typed(Name::ErrorCode, Enumerated(self.code))).tell(cursor, room)
    }
}

impl HasFields for PropertyReference {
    ghost use Rattle.bac_fields.specs.PropertyFields.{reference_steps};

    ghost steps = { reference_steps };

    fn tell(&self, cursor: Cursor, room: &mut [Field]) -> Option<Cursor> {
        let property: Property<0, 1> = Property {
            property: self.property,
            index: self.index,
        };
        property.tell(cursor, room)
    }
}

/// Between tags with number 5.
impl HasFields for ErrorCause {
    ghost use Rattle.bac_fields.specs.PropertyFields.{error_steps};

    ghost steps = { error_steps 5 };

    fn tell(&self, cursor: Cursor, room: &mut [Field]) -> Option<Cursor> {
        let cause = Cause {
            class: self.class,
            code: self.code,
        };
        let start: Opening = Edge(Name::PropertyError, 5, 0);
        let end: Closing = Edge(Name::PropertyErrorEnd, 5, 0);
        (start, (cause, end)).tell(cursor, room)
    }
}

impl HasFields for ReadResult {
    ghost use Rattle.bac_fields.specs.PropertyFields.{read_result_steps};

    ghost steps = { read_result_steps };

    fn tell(&self, cursor: Cursor, room: &mut [Field]) -> Option<Cursor> {
        match self {
            ReadResult::Value(value) => OpenValue::<4>(value).tell(cursor, room),
            ReadResult::Error(cause) => cause.tell(cursor, room),
        }
    }
}

impl HasFields for PropertyResult {
    ghost use Rattle.bac_fields.specs.PropertyFields.{property_result_steps};

    ghost steps = { property_result_steps };

    fn tell(&self, cursor: Cursor, room: &mut [Field]) -> Option<Cursor> {
        let property: Property<2, 3> = Property {
            property: self.property,
            index: self.index,
        };
        (property, &self.result).tell(cursor, room)
    }
}

impl HasFields for PropertyValue {
    ghost use Rattle.bac_fields.specs.PropertyFields.{property_value_steps};

    ghost steps = { property_value_steps };

    fn tell(&self, cursor: Cursor, room: &mut [Field]) -> Option<Cursor> {
        let property: Property<0, 1> = Property {
            property: self.property,
            index: self.index,
        };
        let priority = Optional::<_, 3>(Name::Priority, self.priority);
        (property, (OpenValue::<2>(&self.value), priority)).tell(cursor, room)
    }
}

/// The fields of a reference to a property, as an item of a list.
#[derive(Drop)]
pub(crate) struct ReferenceFields;

impl Message for ReferenceFields {
    ghost use Rattle.bac_service.specs.declared.service.property_reference.PropertyReference.{PropertyReference};
    ghost use Rattle.bac_service.specs.PropertyReference.{SpellsPropertyReference};
    ghost use Rattle.bac_field_parts.specs.declared.names.Name.TheVariants as name;
    ghost use Rattle.bac_fields.specs.Laws.ServiceMessages.{reference_said, reference_message};

    type Parts = (
        One<Word>,
        (
            One<NumberUnder<Enumerated, 0>>,
            Maybe<One<NumberUnder<Unsigned32, 1>>, One<Word>>,
        ),
    );

    ghost Value = { PropertyReference };

    ghost said = { λ message. reference_said };

    ghost spells = { λ message. SpellsPropertyReference };

    ghost parts = { λ message. (record { 0 = record { 0 = name.Item } }, (record { 0 = record { name = name.Property; of = _ } }, record { 0 = record { 0 = record { name = name.Index; of = _ } }; 1 = record { 0 = record { 0 = name.ItemEnd } } })) };

    fn parts(&self) -> Self::Parts {
        let index = number_under::<Unsigned32, 1>(Name::Index);
        let property = number_under::<Enumerated, 0>(Name::Property);
        let rest = Maybe(index, One(Word(Name::ItemEnd)));
        (One(Word(Name::Item)), (property, rest))
    }

    ghost is_message = { λ message. reference_message };
}

/// The fields of the value of a property, as an item of a list.
#[derive(Drop)]
pub(crate) struct ValueFields;

impl Message for ValueFields {
    ghost use Rattle.bac_service.specs.declared.service.property_value.PropertyValue.{PropertyValue};
    ghost use Rattle.bac_service.specs.PropertyValue.{SpellsPropertyValue};
    ghost use Rattle.bac_field_parts.specs.declared.names.Name.TheVariants as name;
    ghost use Rattle.bac_fields.specs.Laws.ServiceMessages.{value_said, value_message};

    type Parts = (
        One<Word>,
        (
            One<NumberUnder<Enumerated, 0>>,
            Maybe<
                One<NumberUnder<Unsigned32, 1>>,
                (
                    OpenValueFields<2>,
                    Maybe<One<NumberUnder<Priority, 3>>, One<Word>>,
                ),
            >,
        ),
    );

    ghost Value = { PropertyValue };

    ghost said = { λ message. value_said };

    ghost spells = { λ message. SpellsPropertyValue 32 };

    ghost parts = { λ message. (record { 0 = record { 0 = name.Item } }, (record { 0 = record { name = name.Property; of = _ } }, record { 0 = record { 0 = record { name = name.Index; of = _ } }; 1 = (_, record { 0 = record { 0 = record { name = name.Priority; of = _ } }; 1 = record { 0 = record { 0 = name.ItemEnd } } }) })) };

    fn parts(&self) -> Self::Parts {
        let priority = number_under::<Priority, 3>(Name::Priority);
        let value = OpenValueFields::<2>;
        let index = number_under::<Unsigned32, 1>(Name::Index);
        let property = number_under::<Enumerated, 0>(Name::Property);
        let rest = (value, Maybe(priority, One(Word(Name::ItemEnd))));
        (One(Word(Name::Item)), (property, Maybe(index, rest)))
    }

    ghost is_message = { λ message. value_message };
}

/// The fields of an error between tags with number 5.
#[derive(Drop)]
pub(crate) struct CauseFields;

impl Message for CauseFields {
    ghost use Rattle.bac_productions.specs.Productions.{Grouped};
    ghost use Rattle.bac_service.specs.declared.service.error_cause.ErrorCause.{ErrorCause};
    ghost use Rattle.bac_service.specs.ErrorCause.{SpellsErrorCause};
    ghost use Rattle.bac_field_parts.specs.declared.names.Name.TheVariants as name;
    ghost use Rattle.bac_fields.specs.Laws.ServiceMessages.{cause_said, cause_message};

    type Parts = (
        One<Opening>,
        (
            One<NumberTyped<Enumerated>>,
            (One<NumberTyped<Enumerated>>, One<Closing>),
        ),
    );

    ghost Value = { ErrorCause };

    ghost said = { λ message. cause_said };

    ghost spells = { λ message. Grouped 5 SpellsErrorCause };

    ghost parts = { λ message. (record { 0 = record { 0 = name.PropertyError; 1 = 5; 2 = 0 } }, (record { 0 = record { name = name.ErrorClass; of = _ } }, (record { 0 = record { name = name.ErrorCode; of = _ } }, record { 0 = record { 0 = name.PropertyErrorEnd; 1 = 5; 2 = 0 } }))) };

    fn parts(&self) -> Self::Parts {
        let class = number_typed::<Enumerated>(Name::ErrorClass);
        let code = number_typed::<Enumerated>(Name::ErrorCode);
        let end = One::<Closing>(Edge(Name::PropertyErrorEnd, 5, 0));
        (
            One::<Opening>(Edge(Name::PropertyError, 5, 0)),
            (class, (code, end)),
        )
    }

    ghost is_message = { λ message. cause_message };
}

/// The fields of the result of a property, as an item of a list.
#[derive(Drop)]
pub(crate) struct ResultFields;

impl Message for ResultFields {
    ghost use Rattle.bac_service.specs.declared.service.property_result.PropertyResult.{PropertyResult};
    ghost use Rattle.bac_service.specs.PropertyResult.{SpellsPropertyResult};
    ghost use Rattle.bac_field_parts.specs.declared.names.Name.TheVariants as name;
    ghost use Rattle.bac_fields.specs.Laws.ServiceMessages.{result_said, result_message};

    type Parts = (
        One<Word>,
        (
            One<NumberUnder<Enumerated, 2>>,
            Maybe<
                One<NumberUnder<Unsigned32, 3>>,
                (Either<OpenValueFields<4>, CauseFields>, One<Word>),
            >,
        ),
    );

    ghost Value = { PropertyResult };

    ghost said = { λ message. result_said };

    ghost spells = { λ message. SpellsPropertyResult 32 };

    ghost parts = { λ message. (record { 0 = record { 0 = name.Item } }, (record { 0 = record { name = name.Property; of = _ } }, record { 0 = record { 0 = record { name = name.Index; of = _ } }; 1 = (_, record { 0 = record { 0 = name.ItemEnd } }) })) };

    fn parts(&self) -> Self::Parts {
        let result = Either(OpenValueFields::<4>, CauseFields);
        let index = number_under::<Unsigned32, 3>(Name::Index);
        let property = number_under::<Enumerated, 2>(Name::Property);
        let rest = (result, One(Word(Name::ItemEnd)));
        (One(Word(Name::Item)), (property, Maybe(index, rest)))
    }

    ghost is_message = { λ message. result_message };
}

impl FromFields for ReferenceFields {
    ghost use Rattle.std.specs.Prelude.{true, false, ◌∷◌, [], Some};
    ghost use Rattle.bac_service.specs.declared.service.property_reference.PropertyReference.{PropertyReference};
    ghost use Rattle.bac_service.specs.PropertyReference.{SpellsPropertyReference};
    ghost use Rattle.bac_fields.specs.Laws.ServiceMessages.{reference_said};
    ghost use Rattle.bac_fields.specs.Laws.Items.{reference_lawful};

    ghost Value = { PropertyReference };

    ghost said = { λ part. reference_said };

    ghost spells = { λ part. SpellsPropertyReference };

    ghost leads = { λ part. Some 115 ∷ [] };

    ghost is_sound = { λ part. true };

    ghost at_end = { λ part. false };

    #[inline(always)]
    fn begins(&self, lead: Option<u32>) -> bool {
        lead == Some(Name::Item.number())
    }

    #[inline(always)]
    fn make(&self, fields: &[Field], octets: &[u8], out: &mut Vec<u8>) -> Result<usize, Fault> {
        Whole(ReferenceFields).make(fields, octets, out)
    }

    ghost lawful = { λ part sound. reference_lawful };
}

impl FromFields for CauseFields {
    ghost use Rattle.std.specs.Prelude.{true, false, ◌∷◌, [], Some};
    ghost use Rattle.bac_productions.specs.Productions.{Grouped};
    ghost use Rattle.bac_service.specs.declared.service.error_cause.ErrorCause.{ErrorCause};
    ghost use Rattle.bac_service.specs.ErrorCause.{SpellsErrorCause};
    ghost use Rattle.bac_fields.specs.Laws.ServiceMessages.{cause_said};
    ghost use Rattle.bac_fields.specs.Laws.Items.{cause_lawful};

    ghost Value = { ErrorCause };

    ghost said = { λ part. cause_said };

    ghost spells = { λ part. Grouped 5 SpellsErrorCause };

    ghost leads = { λ part. Some 119 ∷ [] };

    ghost is_sound = { λ part. true };

    ghost at_end = { λ part. false };

    #[inline(always)]
    fn begins(&self, lead: Option<u32>) -> bool {
        lead == Some(Name::PropertyError.number())
    }

    #[inline(always)]
    fn make(&self, fields: &[Field], octets: &[u8], out: &mut Vec<u8>) -> Result<usize, Fault> {
        Whole(CauseFields).make(fields, octets, out)
    }

    ghost lawful = { λ part sound. cause_lawful };
}

impl FromFields for ResultFields {
    ghost use Rattle.std.specs.Prelude.{true, false, ◌∷◌, [], Some};
    ghost use Rattle.bac_service.specs.declared.service.property_result.PropertyResult.{PropertyResult};
    ghost use Rattle.bac_service.specs.PropertyResult.{SpellsPropertyResult};
    ghost use Rattle.bac_fields.specs.Laws.ServiceMessages.{result_said};
    ghost use Rattle.bac_fields.specs.Laws.Items.{result_lawful};

    ghost Value = { PropertyResult };

    ghost said = { λ part. result_said };

    ghost spells = { λ part. SpellsPropertyResult 32 };

    ghost leads = { λ part. Some 115 ∷ [] };

    ghost is_sound = { λ part. true };

    ghost at_end = { λ part. false };

    #[inline(always)]
    fn begins(&self, lead: Option<u32>) -> bool {
        lead == Some(Name::Item.number())
    }

    #[inline(always)]
    fn make(&self, fields: &[Field], octets: &[u8], out: &mut Vec<u8>) -> Result<usize, Fault> {
        Whole(ResultFields).make(fields, octets, out)
    }

    ghost lawful = { λ part sound. result_lawful };
}

impl FromFields for ValueFields {
    ghost use Rattle.std.specs.Prelude.{true, false, ◌∷◌, [], Some};
    ghost use Rattle.bac_service.specs.declared.service.property_value.PropertyValue.{PropertyValue};
    ghost use Rattle.bac_service.specs.PropertyValue.{SpellsPropertyValue};
    ghost use Rattle.bac_fields.specs.Laws.ServiceMessages.{value_said};
    ghost use Rattle.bac_fields.specs.Laws.Items.{value_lawful};

    ghost Value = { PropertyValue };

    ghost said = { λ part. value_said };

    ghost spells = { λ part. SpellsPropertyValue 32 };

    ghost leads = { λ part. Some 115 ∷ [] };

    ghost is_sound = { λ part. true };

    ghost at_end = { λ part. false };

    #[inline(always)]
    fn begins(&self, lead: Option<u32>) -> bool {
        lead == Some(Name::Item.number())
    }

    #[inline(always)]
    fn make(&self, fields: &[Field], octets: &[u8], out: &mut Vec<u8>) -> Result<usize, Fault> {
        Whole(ValueFields).make(fields, octets, out)
    }

    ghost lawful = { λ part sound. value_lawful };
}
