//! Laws of the definitions. The bodies do nothing: the contracts are the laws. Only [`decoders_answer_so`] does something.

ghost use Rattle.std.specs.Prelude.{◌≡◌, ◌≢◌, ◌↔◌, ◌⊎◌, ◌++◌, ◌∷◌, [], Err, List, None, Result, Some, length, true, ℕ};
ghost use Rattle.std.specs.List.{AllByRecursion, AllZip};
ghost use Rattle.bac_tag.specs.declared.refusals.Refusal.{Refusal};
ghost use Rattle.bac_tag.specs.declared.refusals.Why.TheVariants.{OutOfMemory};
ghost use Rattle.bac_tag.specs.Spelling.{IsSpelling};
ghost use Rattle.bac_service.specs.Services.{ServiceValue, SpellsService};
ghost use Rattle.bac_npdu_parts.specs.Frames.{SpellsFrame};
ghost use Rattle.bac_npdu.specs.Meanings.{IsNormalOf, MeanTheSame};
ghost use Rattle.bac_segment.specs.declared.cutting.CutPlan.{CutPlan};
ghost use Rattle.bac_segment.specs.declared.keys.Key.{Key};
ghost use Rattle.bac_segment.specs.Cuts.{AreAmong, AreOf, IsOneOf};
ghost use Rattle.bac_segment.specs.Deliveries.{Delivery, key_of};
ghost use Rattle.bac_segment.specs.DeskHistories.{DeskCall, DeskRuns, since_opened, taken};
ghost use Rattle.bac_segment.specs.Desks.{held_of};
ghost use Rattle.bac_segment.specs.Histories.{Delivers, counted};
ghost use Rattle.bac_segment.specs.Pieces.{IsCutOf, cut_fault};
ghost use Rattle.bac_segment.specs.Reassembled.{Reassembled, opened};
ghost use Rattle.bac_segment.specs.Tables.{whole};
ghost use Rattle.bac_segment.specs.Taking.{Answer};
ghost use Rattle.bac_record.specs.Outputs.{Outputs};
ghost use Rattle.bac_record.specs.Records.{IsRecord, Records, TooMany, end_of};
ghost use Rattle.bac_stream.specs.declared.modes.Mode.{Mode};
ghost use Rattle.bac_stream.specs.Feeds.{Fed, Feed, Feeds, IsAnswer, items_of, taken_in};
ghost use Rattle.bac_stream.specs.declared.modes.Mode.TheVariants.{Strict, Tolerant};
ghost use Rattle.bac_stream.specs.Headline.{HadMemory, IsDecoded, IsDecodedStrictly, RunsByRecords};
ghost use Rattle.bac_stream.specs.Intakes.{GivesItsValue, IntakeValue, IsItem, Item, fresh};
ghost use Rattle.bac_stream.specs.Judging.{IsCanonicalFor, Refuses};
ghost use Rattle.bac_stream.specs.Joining.{IsGoodJoin, IsJoined, IsLastJoin, kind_of};
ghost use Rattle.bac_stream.specs.Lines.{ChecksAs, IsKept, NormalisesTo, ShowsAs};
ghost use Rattle.bac_stream.specs.declared.joined.JoinFault.{JoinFault};
ghost use Rattle.bac_stream.specs.declared.joined.Joined.{Joined};

use bac_npdu::laws::{
    canonical_octets_tell_the_meaning, frames_have_canonical_octets, frames_have_one_value,
};
use bac_npdu::{Frame, decode_frame, decode_strict};
use bac_segment::laws::{a_desk_joins_what_was_cut, what_was_cut_is_joined};
use bac_service::laws::services_have_one_value;
use bac_tag::Refusal;
use std::alloc::Global;

/// The headline: two tolerated frames mean the same exactly if their canonical octets are equal. The tolerant decoder
/// accepts every tolerated spelling and no other, and the strict decoder exactly the canonical one, in whatever pieces
/// octets come, each giving its value and consuming exactly that frame. Segments cut from the octets of a service, lost,
/// repeated or reordered, give those octets or none.
pub fn headline()
    // Octets that spell a frame have canonical octets.
    ensures canonical { (b : List ℕ) → IsSpelling SpellsFrame b → (d : List ℕ) × IsNormalOf b d }

    // Two tolerated frames mean the same exactly if their canonical octets are equal.
    ensures meaning { (b c d e : List ℕ) → IsNormalOf b d → IsNormalOf c e → MeanTheSame b c ↔ (d ≡ e) }

    // In whatever pieces octets come, each record of them gives one item, in order, and nothing else is consumed.
    ensures pieces { (mode : Mode) (feeds : List Feed) (intake : IntakeValue) → Feeds (fresh mode) feeds intake
        → (list : List (List ℕ)) × Records list intake.rest (taken_in feeds) × AllZip (IsItem mode) list (items_of feeds) }

    // The same of a file, however the reads of a run cut it: a run answers and writes by the records of the file.
    ensures files { (mode : Mode) → RunsByRecords (ShowsAs mode) (λ _ _. ⊥) mode × RunsByRecords (ChecksAs mode) (λ _ _. ⊥) mode × RunsByRecords (NormalisesTo mode) (Refuses mode) mode }

    // The tolerant decoder accepts every tolerated spelling and no other, and gives its value: as an item of a stream, and
    // as the answer of `decode_frame`, unless memory is refused.
    ensures tolerant { (octets : List ℕ) (item : Item) → IsItem Tolerant octets item → GivesItsValue SpellsFrame octets item }
    ensures decoded { (octets : List ℕ) (item : Item) → IsDecoded octets item → HadMemory item → GivesItsValue SpellsFrame octets item }

    // The strict decoder accepts exactly the canonical spelling, and gives its value: as an item of a stream, and as the
    // answer of `decode_strict`, unless memory is refused.
    ensures strict { (octets : List ℕ) (item : Item) → IsItem Strict octets item → GivesItsValue IsCanonicalFor octets item }
    ensures decoded_strictly { (octets : List ℕ) (item : Item) → IsDecodedStrictly octets item → HadMemory item → GivesItsValue IsCanonicalFor octets item }

    // Segments cut from the octets of a service, lost, repeated or reordered, give those octets exactly where none is
    // missing, and otherwise none: of a desk that holds several messages, and of a reassembly of one.
    ensures segments { (plan : CutPlan) (octets : List ℕ) (segments : List Delivery) (key : Key) (calls : List DeskCall) (desk : List Reassembled)
        → cut_fault plan octets ≡ None → IsCutOf plan octets segments → AreAmong segments (since_opened key calls) → DeskRuns [] calls desk
        → ((whole (held_of desk key) ≡ Some octets) ↔ AreAmong (since_opened key calls) segments)
        × ((whole (held_of desk key) ≡ Some octets) ⊎ (whole (held_of desk key) ≡ None)) }
    ensures reassembled { (plan : CutPlan) (octets : List ℕ) (segments : List Delivery) (key : Key) (calls : List (Delivery × Answer)) (r : Reassembled)
        → cut_fault plan octets ≡ None → IsCutOf plan octets segments → AreOf key segments calls → Delivers (opened key) calls r
        → ((whole r.table ≡ Some octets) ↔ AreAmong (counted calls) segments) × ((whole r.table ≡ Some octets) ⊎ (whole r.table ≡ None)) }
{
    frames_have_one_value();
    frames_have_canonical_octets();
    canonical_octets_tell_the_meaning();
    feeds_give_records();
    a_desk_joins_what_was_cut();
    what_was_cut_is_joined();
}

/// Decodes the octets with `decode_frame` and with `decode_strict`. The contract says that the headline speaks of their
/// answers.
pub fn decoders_answer_so(
    alloc: Global,
    octets: &[u8],
) -> (Result<Frame, Refusal>, Result<Frame, Refusal>)
    ensures tolerant { IsDecoded octets.now result.0 }
    ensures strict { IsDecodedStrictly octets.now result.1 }
{
    (decode_frame(alloc, octets), decode_strict(alloc, octets))
}

/// What `normalise` writes for all records of a list is a file of as many records again. For this file it writes the file
/// itself, in either mode.
pub fn normalised_files_are_kept()
    ensures { (mode : Mode) (list : List (List ℕ)) (output : List ℕ) → AllByRecursion IsRecord list → Outputs (NormalisesTo mode) 1 list output → IsKept (length list) output }
{
    frames_have_one_value();
}

/// However a stream is cut into pieces, the pieces that were answered Ok, joined, are records and a rest. All items
/// given are one for each of these records, in order. The intake holds the number of the records, and the rest.
pub fn feeds_give_records()
    ensures { (mode : Mode) (feeds : List Feed) (intake : IntakeValue) → Feeds (fresh mode) feeds intake
        → (list : List (List ℕ)) × Records list intake.rest (taken_in feeds) × AllZip (IsItem mode) list (items_of feeds)
        × (intake.mode ≡ mode) × (intake.records ≡ length list) × (end_of intake.records intake.rest ≢ TooMany) }
{}

/// Feeds after others continue from where those ended.
pub fn feeds_go_on()
    ensures { (old mid new : IntakeValue) (feeds more : List Feed) → Feeds old feeds mid → Feeds mid more new → Feeds old (feeds ++ more) new }
{}

/// Unless memory is refused, a piece is answered with `TooManyFrames` exactly if the pieces that were answered Ok
/// and this one, joined, have too many records.
pub fn feeds_end_as_files()
    ensures { (mode : Mode) (feeds : List Feed) (old new : IntakeValue) (feed : Feed) → Feeds (fresh mode) feeds old → Fed old feed new
        → (list : List (List ℕ)) (rest : List ℕ) → Records list rest (taken_in feeds ++ feed.piece) → IsAnswer feed.answer (end_of (length list) rest) }
{}

/// No item is a refusal for lack of memory.
pub fn items_want_no_memory()
    ensures { (mode : Mode) (octets : List ℕ) (refusal : Refusal) → IsItem mode octets (Err refusal) → refusal.why ≢ OutOfMemory }
{}

/// If all segments of a message since its key was opened come from one cut of a service's octets, with its kind and its
/// choice, each segment of this cut that is joined is kept, is held already, or completes this service. The exceptions:
/// memory is refused, or eight other keys are open.
pub fn joined_segments_give_the_service()
    ensures { (plan : CutPlan) (octets : List ℕ) (segments : List Delivery) (service : ServiceValue) (before : List DeskCall) (desk : List Reassembled)
        (peer : ℕ) (s : Delivery) (a : Answer) (result : Result Joined JoinFault)
        → cut_fault plan octets ≡ None → IsCutOf plan octets segments → SpellsService true 32 (kind_of plan.head) plan.choice service octets
        → AreAmong segments (since_opened (key_of peer s) before) → IsOneOf segments s → DeskRuns [] (before ++ taken peer s a ∷ []) desk
        → IsJoined s a (whole (held_of desk (key_of peer s))) result → IsGoodJoin service result }
{
    services_have_one_value();
}

/// Under the same premises, the last missing segment of the cut completes the service, unless memory is refused or eight
/// other keys are open.
pub fn the_last_segment_gives_the_service()
    ensures { (plan : CutPlan) (octets : List ℕ) (segments : List Delivery) (service : ServiceValue) (before : List DeskCall) (desk : List Reassembled)
        (peer : ℕ) (s : Delivery) (a : Answer) (result : Result Joined JoinFault)
        → cut_fault plan octets ≡ None → IsCutOf plan octets segments → SpellsService true 32 (kind_of plan.head) plan.choice service octets
        → AreAmong segments (since_opened (key_of peer s) before) → IsOneOf segments s
        → AreAmong (since_opened (key_of peer s) before ++ s ∷ []) segments → (AreAmong (since_opened (key_of peer s) before) segments → ⊥)
        → DeskRuns [] (before ++ taken peer s a ∷ []) desk → IsJoined s a (whole (held_of desk (key_of peer s))) result → IsLastJoin service result }
{
    services_have_one_value();
}
