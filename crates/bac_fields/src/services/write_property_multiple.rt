//! The fields of WritePropertyMultiple and of its error (clause 15.10).

use crate::open_values::ListedIn;
use crate::parts::{HasFields, Listed, Pass};
use crate::services::properties::{Cause, Property, ValueFields};
use crate::values::Under;
use bac_field_parts::cursor::Cursor;
use bac_field_parts::edges::{Closing, Edge, Opening};
use bac_field_parts::forms::One;
use bac_field_parts::leaves::{Octet, Word};
use bac_field_parts::making::{Each, End, Fault, FromFields, Maybe};
use bac_field_parts::tagged::{After, ClosedEnd};
use bac_field_parts::values::{NumberTyped, NumberUnder, number_typed, number_under};
use bac_field_parts::whole::{Message, Whole};
use bac_field_parts::{Field, Name};
use bac_service::{WriteAccessSpecification, WritePropertyMultiple, WritePropertyMultipleError};
use bac_tag::TagHead;
use bac_value::layers::Unsigned32;
use bac_value::{Enumerated, ObjectId};

impl HasFields for WriteAccessSpecification {
    ghost use Rattle.bac_service.specs.WriteAccessSpecification.{write_specification_of};
    ghost use Rattle.bac_fields.specs.WritePropertyMultipleFields.{write_specification_steps};

    ghost steps = { λ specification. write_specification_steps (write_specification_of specification) };

    fn tell(&self, cursor: Cursor, room: &mut [Field]) -> Option<Cursor> {
        let object = Under::<ObjectId, 0>(Name::Object, self.object);
        let values = ListedIn::<_, 1>(Name::Values, self.values.as_slice());
        (object, values).tell(cursor, room)
    }
}

impl HasFields for WritePropertyMultiple {
    ghost use Rattle.std.specs.Prelude.{map};
    ghost use Rattle.bac_service.specs.WriteAccessSpecification.{write_specification_of};
    ghost use Rattle.bac_fields.specs.WritePropertyMultipleFields.{write_multiple_steps};

    ghost steps = { λ request. write_multiple_steps (map write_specification_of request.specs.items) };

    fn tell(&self, cursor: Cursor, room: &mut [Field]) -> Option<Cursor> {
        let specs = Listed(Name::Specifications, self.specs.as_slice());
        (Octet(Name::WritePropertyMultiple, 16), specs).tell(cursor, room)
    }
}

/// The error and the reference are groups, whose tags belong to no field.
impl HasFields for WritePropertyMultipleError {
    ghost use Rattle.bac_fields.specs.WritePropertyMultipleFields.{write_error_steps};

    ghost steps = { write_error_steps };

    fn tell(&self, cursor: Cursor, room: &mut [Field]) -> Option<Cursor> {
        let cause = Cause {
            class: self.class,
            code: self.code,
        };
        let object = Under::<ObjectId, 0>(Name::Object, self.object);
        let property: Property<1, 2> = Property {
            property: self.property,
            index: self.index,
        };
        let reference = (Pass(2), (object, (property, Pass(1))));
        (Octet(Name::Choice, 16), (Pass(1), (cause, reference))).tell(cursor, room)
    }
}

/// The fields of a WriteAccessSpecification, as an item of a list.
#[derive(Drop)]
pub(crate) struct WriteSpecificationFields;

impl Message for WriteSpecificationFields {
    ghost use Rattle.bac_service.specs.WriteAccessSpecification.{WriteSpecification, SpellsWriteSpecification};
    ghost use Rattle.bac_field_parts.specs.declared.names.Name.TheVariants as name;
    ghost use Rattle.bac_fields.specs.Laws.ServiceMessages.{write_specification_said, write_specification_message};

    type Parts = (
        One<Word>,
        (
            One<NumberUnder<ObjectId, 0>>,
            ((One<Opening>, Each<ValueFields, One<Closing>>), One<Word>),
        ),
    );

    ghost Value = { WriteSpecification };

    ghost said = { λ message. write_specification_said };

    ghost spells = { λ message. SpellsWriteSpecification 32 };

    ghost parts = { λ message. (record { 0 = record { 0 = name.Item } }, (record { 0 = record { name = name.Object; of = _ } }, ((record { 0 = record { 0 = name.Values; 1 = 1; 2 = 0 } }, record { 0 = _; 1 = record { 0 = record { 0 = name.ListEnd; 1 = 1; 2 = 0 } } }), record { 0 = record { 0 = name.ItemEnd } }))) };

    fn parts(&self) -> Self::Parts {
        let object = number_under::<ObjectId, 0>(Name::Object);
        let start = One::<Opening>(Edge(Name::Values, 1, 0));
        let end = One::<Closing>(Edge(Name::ListEnd, 1, 0));
        let values = (start, Each(ValueFields, end));
        let rest = (values, One(Word(Name::ItemEnd)));
        (One(Word(Name::Item)), (object, rest))
    }

    ghost is_message = { λ message. write_specification_message };
}

/// The fields of a WritePropertyMultiple.
#[derive(Drop)]
pub(crate) struct WriteMultipleFields;

impl Message for WriteMultipleFields {
    ghost use Rattle.std.specs.Prelude.{List};
    ghost use Rattle.bac_productions.specs.Productions.{Items};
    ghost use Rattle.bac_service.specs.WriteAccessSpecification.{WriteSpecification, SpellsWriteSpecification};
    ghost use Rattle.bac_field_parts.specs.declared.names.Name.TheVariants as name;
    ghost use Rattle.bac_fields.specs.Laws.ServiceMessages.{SpellsChosen, write_multiple_said, write_multiple_message};

    type Parts = (
        One<Octet>,
        (One<Word>, Each<WriteSpecificationFields, (One<Word>, End)>),
    );

    ghost Value = { List WriteSpecification };

    ghost said = { λ message. write_multiple_said };

    ghost spells = { λ message items. SpellsChosen 16 (Items (SpellsWriteSpecification 32) items) };

    ghost parts = { λ message. (record { 0 = record { 0 = name.WritePropertyMultiple; 1 = 16 } }, (record { 0 = record { 0 = name.Specifications } }, record { 0 = _; 1 = (record { 0 = record { 0 = name.ListEnd } }, _) })) };

    fn parts(&self) -> Self::Parts {
        let end = (One(Word(Name::ListEnd)), End);
        let items = Each(WriteSpecificationFields, end);
        let start = One(Word(Name::Specifications));
        (One(Octet(Name::WritePropertyMultiple, 16)), (start, items))
    }

    ghost is_message = { λ message. write_multiple_message };
}

/// The fields of the error of WritePropertyMultiple.
#[derive(Drop)]
pub(crate) struct WriteErrorFields;

impl Message for WriteErrorFields {
    ghost use Rattle.bac_service.specs.declared.service.write_property_multiple_error.WritePropertyMultipleError.{WritePropertyMultipleError};
    ghost use Rattle.bac_service.specs.WritePropertyMultipleError.{SpellsWriteError};
    ghost use Rattle.bac_tag.specs.declared.heads.TagHead.TheVariants as tag;
    ghost use Rattle.bac_field_parts.specs.declared.names.Name.TheVariants as name;
    ghost use Rattle.bac_fields.specs.Laws.ErrorMessages.{write_error_said, write_error_message};
    ghost use Rattle.bac_fields.specs.Laws.ServiceMessages.{SpellsChosen};

    type Parts = (
        One<Octet>,
        After<
            (
                One<NumberTyped<Enumerated>>,
                (
                    One<NumberTyped<Enumerated>>,
                    After<
                        After<
                            (
                                One<NumberUnder<ObjectId, 0>>,
                                (
                                    One<NumberUnder<Enumerated, 1>>,
                                    Maybe<One<NumberUnder<Unsigned32, 2>>, ClosedEnd>,
                                ),
                            ),
                        >,
                    >,
                ),
            ),
        >,
    );

    ghost Value = { WritePropertyMultipleError };

    ghost said = { λ message. write_error_said };

    ghost spells = { λ message error. SpellsChosen 16 (SpellsWriteError error) };

    ghost parts = { λ message. (record { 0 = record { 0 = name.Choice; 1 = 16 } }, record { 0 = tag.Open 0; 1 = (record { 0 = record { name = name.ErrorClass; of = _ } }, (record { 0 = record { name = name.ErrorCode; of = _ } }, record { 0 = tag.Close 0; 1 = record { 0 = tag.Open 1; 1 = (record { 0 = record { name = name.Object; of = _ } }, (record { 0 = record { name = name.Property; of = _ } }, record { 0 = record { 0 = record { name = name.Index; of = _ } }; 1 = record { 0 = 1 } })) } })) }) };

    fn parts(&self) -> Self::Parts {
        let index = number_under::<Unsigned32, 2>(Name::Index);
        let property = number_under::<Enumerated, 1>(Name::Property);
        let object = number_under::<ObjectId, 0>(Name::Object);
        let reference = (object, (property, Maybe(index, ClosedEnd(1))));
        let reference = After(TagHead::Close(0), After(TagHead::Open(1), reference));
        let class = number_typed::<Enumerated>(Name::ErrorClass);
        let code = number_typed::<Enumerated>(Name::ErrorCode);
        let cause = After(TagHead::Open(0), (class, (code, reference)));
        (One(Octet(Name::Choice, 16)), cause)
    }

    ghost is_message = { λ message. write_error_message };
}

impl FromFields for WriteSpecificationFields {
    ghost use Rattle.std.specs.Prelude.{true, false, ◌∷◌, [], Some};
    ghost use Rattle.bac_service.specs.WriteAccessSpecification.{WriteSpecification, SpellsWriteSpecification};
    ghost use Rattle.bac_fields.specs.Laws.ServiceMessages.{write_specification_said};
    ghost use Rattle.bac_fields.specs.Laws.Items.{write_specification_lawful};

    ghost Value = { WriteSpecification };

    ghost said = { λ part. write_specification_said };

    ghost spells = { λ part. SpellsWriteSpecification 32 };

    ghost leads = { λ part. Some 115 ∷ [] };

    ghost is_sound = { λ part. true };

    ghost at_end = { λ part. false };

    #[inline(always)]
    fn begins(&self, lead: Option<u32>) -> bool {
        lead == Some(Name::Item.number())
    }

    #[inline(always)]
    fn make(&self, fields: &[Field], octets: &[u8], out: &mut Vec<u8>) -> Result<usize, Fault> {
        Whole(WriteSpecificationFields).make(fields, octets, out)
    }

    ghost lawful = { λ part sound. write_specification_lawful };
}
