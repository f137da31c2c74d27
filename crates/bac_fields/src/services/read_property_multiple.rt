//! The fields of ReadPropertyMultiple and of its answer (clause 15.7).

use crate::open_values::ListedIn;
use crate::parts::{HasFields, Listed};
use crate::services::properties::{ReferenceFields, ResultFields};
use crate::values::Under;
use bac_field_parts::cursor::Cursor;
use bac_field_parts::edges::{Closing, Edge, Opening};
use bac_field_parts::forms::One;
use bac_field_parts::leaves::{Octet, Word};
use bac_field_parts::making::{Each, End, Fault, FromFields, Maybe};
use bac_field_parts::values::{NumberUnder, number_under};
use bac_field_parts::whole::{Message, Whole};
use bac_field_parts::{Field, Name};
use bac_service::{
    PropertyResult, ReadAccessResult, ReadAccessSpecification, ReadPropertyMultiple,
    ReadPropertyMultipleAck,
};
use bac_value::ObjectId;

impl HasFields for ReadAccessSpecification {
    ghost use Rattle.bac_service.specs.ReadAccessSpecification.{specification_of};
    ghost use Rattle.bac_fields.specs.ReadPropertyMultipleFields.{specification_steps};

    ghost steps = { λ specification. specification_steps (specification_of specification) };

    fn tell(&self, cursor: Cursor, room: &mut [Field]) -> Option<Cursor> {
        let object = Under::<ObjectId, 0>(Name::Object, self.object);
        let properties = ListedIn::<_, 1>(Name::Properties, self.properties.as_slice());
        (object, properties).tell(cursor, room)
    }
}

impl HasFields for ReadPropertyMultiple {
    ghost use Rattle.std.specs.Prelude.{map};
    ghost use Rattle.bac_service.specs.ReadAccessSpecification.{specification_of};
    ghost use Rattle.bac_fields.specs.ReadPropertyMultipleFields.{read_multiple_steps};

    ghost steps = { λ request. read_multiple_steps (map specification_of request.specs.items) };

    fn tell(&self, cursor: Cursor, room: &mut [Field]) -> Option<Cursor> {
        let specs = Listed(Name::Specifications, self.specs.as_slice());
        (Octet(Name::ReadPropertyMultiple, 14), specs).tell(cursor, room)
    }
}

/// The results of an object, if there are any.
#[derive(Clone, Copy)]
struct Results<'a>(&'a Option<Vec<PropertyResult>>);

impl HasFields for Results<'_> {
    ghost use Rattle.bac_field_parts.specs.declared.names.Name.TheVariants as name;
    ghost use Rattle.std.specs.Prelude.{[]};
    ghost use Rattle.std.specs.Option.{option_map_or};
    ghost use Rattle.bac_field_parts.specs.Fields.{listed_in};
    ghost use Rattle.bac_fields.specs.PropertyFields.{property_result_steps};

    ghost steps = { λ results. option_map_or (λ there. listed_in name.Results 1 property_result_steps there.items) results.0.now [] };

    fn tell(&self, cursor: Cursor, room: &mut [Field]) -> Option<Cursor> {
        match self.0 {
            Some(results) => {
                ListedIn::<_, 1>(Name::Results, results.as_slice()).tell(cursor, room)
            }
            None => Some(cursor),
        }
    }
}

impl HasFields for ReadAccessResult {
    ghost use Rattle.bac_service.specs.ReadAccessResult.{access_result_of};
    ghost use Rattle.bac_fields.specs.ReadPropertyMultipleFields.{access_result_steps};

    ghost steps = { λ result. access_result_steps (access_result_of result) };

    fn tell(&self, cursor: Cursor, room: &mut [Field]) -> Option<Cursor> {
        let object = Under::<ObjectId, 0>(Name::Object, self.object);
        (object, Results(&self.results)).tell(cursor, room)
    }
}

impl HasFields for ReadPropertyMultipleAck {
    ghost use Rattle.std.specs.Prelude.{map};
    ghost use Rattle.bac_service.specs.ReadAccessResult.{access_result_of};
    ghost use Rattle.bac_fields.specs.ReadPropertyMultipleFields.{read_multiple_ack_steps};

    ghost steps = { λ ack. read_multiple_ack_steps (map access_result_of ack.results.items) };

    fn tell(&self, cursor: Cursor, room: &mut [Field]) -> Option<Cursor> {
        let results = Listed(Name::Results, self.results.as_slice());
        (Octet(Name::ReadPropertyMultiple, 14), results).tell(cursor, room)
    }
}

/// The fields of a ReadAccessSpecification, as an item of a list.
#[derive(Drop)]
pub(crate) struct SpecificationFields;

impl Message for SpecificationFields {
    ghost use Rattle.bac_service.specs.ReadAccessSpecification.{Specification, SpellsSpecification};
    ghost use Rattle.bac_field_parts.specs.declared.names.Name.TheVariants as name;
    ghost use Rattle.bac_fields.specs.Laws.ServiceMessages.{specification_said, specification_message};

    type Parts = (
        One<Word>,
        (
            One<NumberUnder<ObjectId, 0>>,
            (
                (One<Opening>, Each<ReferenceFields, One<Closing>>),
                One<Word>,
            ),
        ),
    );

    ghost Value = { Specification };

    ghost said = { λ message. specification_said };

    ghost spells = { λ message. SpellsSpecification };

    ghost parts = { λ message. (record { 0 = record { 0 = name.Item } }, (record { 0 = record { name = name.Object; of = _ } }, ((record { 0 = record { 0 = name.Properties; 1 = 1; 2 = 0 } }, record { 0 = _; 1 = record { 0 = record { 0 = name.ListEnd; 1 = 1; 2 = 0 } } }), record { 0 = record { 0 = name.ItemEnd } }))) };

    fn parts(&self) -> Self::Parts {
        let object = number_under::<ObjectId, 0>(Name::Object);
        let start = One::<Opening>(Edge(Name::Properties, 1, 0));
        let end = One::<Closing>(Edge(Name::ListEnd, 1, 0));
        let properties = (start, Each(ReferenceFields, end));
        let rest = (properties, One(Word(Name::ItemEnd)));
        (One(Word(Name::Item)), (object, rest))
    }

    ghost is_message = { λ message. specification_message };
}

/// The fields of a ReadPropertyMultiple.
#[derive(Drop)]
pub(crate) struct ReadMultipleFields;

impl Message for ReadMultipleFields {
    ghost use Rattle.std.specs.Prelude.{List};
    ghost use Rattle.bac_productions.specs.Productions.{Items};
    ghost use Rattle.bac_service.specs.ReadAccessSpecification.{Specification, SpellsSpecification};
    ghost use Rattle.bac_field_parts.specs.declared.names.Name.TheVariants as name;
    ghost use Rattle.bac_fields.specs.Laws.ServiceMessages.{SpellsChosen, read_multiple_said, read_multiple_message};

    type Parts = (
        One<Octet>,
        (One<Word>, Each<SpecificationFields, (One<Word>, End)>),
    );

    ghost Value = { List Specification };

    ghost said = { λ message. read_multiple_said };

    ghost spells = { λ message items. SpellsChosen 14 (Items SpellsSpecification items) };

    ghost parts = { λ message. (record { 0 = record { 0 = name.ReadPropertyMultiple; 1 = 14 } }, (record { 0 = record { 0 = name.Specifications } }, record { 0 = _; 1 = (record { 0 = record { 0 = name.ListEnd } }, _) })) };

    fn parts(&self) -> Self::Parts {
        let end = (One(Word(Name::ListEnd)), End);
        let items = Each(SpecificationFields, end);
        let start = One(Word(Name::Specifications));
        (One(Octet(Name::ReadPropertyMultiple, 14)), (start, items))
    }

    ghost is_message = { λ message. read_multiple_message };
}

/// The fields of a ReadAccessResult, as an item of a list.
#[derive(Drop)]
pub(crate) struct AccessFields;

impl Message for AccessFields {
    ghost use Rattle.bac_service.specs.ReadAccessResult.{AccessResult, SpellsAccessResult};
    ghost use Rattle.bac_field_parts.specs.declared.names.Name.TheVariants as name;
    ghost use Rattle.bac_fields.specs.Laws.ServiceMessages.{access_said, access_message};

    type Parts = (
        One<Word>,
        (
            One<NumberUnder<ObjectId, 0>>,
            Maybe<(One<Opening>, Each<ResultFields, One<Closing>>), One<Word>>,
        ),
    );

    ghost Value = { AccessResult };

    ghost said = { λ message. access_said };

    ghost spells = { λ message. SpellsAccessResult 32 };

    ghost parts = { λ message. (record { 0 = record { 0 = name.Item } }, (record { 0 = record { name = name.Object; of = _ } }, record { 0 = (record { 0 = record { 0 = name.Results; 1 = 1; 2 = 0 } }, record { 0 = _; 1 = record { 0 = record { 0 = name.ListEnd; 1 = 1; 2 = 0 } } }); 1 = record { 0 = record { 0 = name.ItemEnd } } })) };

    fn parts(&self) -> Self::Parts {
        let object = number_under::<ObjectId, 0>(Name::Object);
        let start = One::<Opening>(Edge(Name::Results, 1, 0));
        let end = One::<Closing>(Edge(Name::ListEnd, 1, 0));
        let results = (start, Each(ResultFields, end));
        let rest = Maybe(results, One(Word(Name::ItemEnd)));
        (One(Word(Name::Item)), (object, rest))
    }

    ghost is_message = { λ message. access_message };
}

/// The fields of the answer to a ReadPropertyMultiple.
#[derive(Drop)]
pub(crate) struct ReadMultipleAckFields;

impl Message for ReadMultipleAckFields {
    ghost use Rattle.std.specs.Prelude.{List};
    ghost use Rattle.bac_productions.specs.Productions.{Items};
    ghost use Rattle.bac_service.specs.ReadAccessResult.{AccessResult, SpellsAccessResult};
    ghost use Rattle.bac_field_parts.specs.declared.names.Name.TheVariants as name;
    ghost use Rattle.bac_fields.specs.Laws.ServiceMessages.{SpellsChosen, read_multiple_ack_said, read_multiple_ack_message};

    type Parts = (
        One<Octet>,
        (One<Word>, Each<AccessFields, (One<Word>, End)>),
    );

    ghost Value = { List AccessResult };

    ghost said = { λ message. read_multiple_ack_said };

    ghost spells = { λ message items. SpellsChosen 14 (Items (SpellsAccessResult 32) items) };

    ghost parts = { λ message. (record { 0 = record { 0 = name.ReadPropertyMultiple; 1 = 14 } }, (record { 0 = record { 0 = name.Results } }, record { 0 = _; 1 = (record { 0 = record { 0 = name.ListEnd } }, _) })) };

    fn parts(&self) -> Self::Parts {
        let end = (One(Word(Name::ListEnd)), End);
        let items = Each(AccessFields, end);
        let start = One(Word(Name::Results));
        (One(Octet(Name::ReadPropertyMultiple, 14)), (start, items))
    }

    ghost is_message = { λ message. read_multiple_ack_message };
}

impl FromFields for SpecificationFields {
    ghost use Rattle.std.specs.Prelude.{true, false, ◌∷◌, [], Some};
    ghost use Rattle.bac_service.specs.ReadAccessSpecification.{Specification, SpellsSpecification};
    ghost use Rattle.bac_fields.specs.Laws.ServiceMessages.{specification_said};
    ghost use Rattle.bac_fields.specs.Laws.Items.{specification_lawful};

    ghost Value = { Specification };

    ghost said = { λ part. specification_said };

    ghost spells = { λ part. SpellsSpecification };

    ghost leads = { λ part. Some 115 ∷ [] };

    ghost is_sound = { λ part. true };

    ghost at_end = { λ part. false };

    #[inline(always)]
    fn begins(&self, lead: Option<u32>) -> bool {
        lead == Some(Name::Item.number())
    }

    #[inline(always)]
    fn make(&self, fields: &[Field], octets: &[u8], out: &mut Vec<u8>) -> Result<usize, Fault> {
        Whole(SpecificationFields).make(fields, octets, out)
    }

    ghost lawful = { λ part sound. specification_lawful };
}

impl FromFields for AccessFields {
    ghost use Rattle.std.specs.Prelude.{true, false, ◌∷◌, [], Some};
    ghost use Rattle.bac_service.specs.ReadAccessResult.{AccessResult, SpellsAccessResult};
    ghost use Rattle.bac_fields.specs.Laws.ServiceMessages.{access_said};
    ghost use Rattle.bac_fields.specs.Laws.Items.{access_lawful};

    ghost Value = { AccessResult };

    ghost said = { λ part. access_said };

    ghost spells = { λ part. SpellsAccessResult 32 };

    ghost leads = { λ part. Some 115 ∷ [] };

    ghost is_sound = { λ part. true };

    ghost at_end = { λ part. false };

    #[inline(always)]
    fn begins(&self, lead: Option<u32>) -> bool {
        lead == Some(Name::Item.number())
    }

    #[inline(always)]
    fn make(&self, fields: &[Field], octets: &[u8], out: &mut Vec<u8>) -> Result<usize, Fault> {
        Whole(AccessFields).make(fields, octets, out)
    }

    ghost lawful = { λ part sound. access_lawful };
}
