//! Laws of the definitions, over every message and every list of calls.

ghost use Rattle.std.specs.Prelude.{◌≡◌, ◌≢◌, ◌↔◌, ◌⊎◌, ◌≤◌, ◌<◌, ◌*◌, ℕ, Bool, ◌++◌, ◌∷◌, [], true, List, Some, None, Ok, length};
ghost use Rattle.std.specs.List.{AllByRecursion};
ghost use Rattle.bac_segment.specs.declared.keys.Key.{Key};
ghost use Rattle.bac_segment.specs.declared.cutting.CutPlan.{CutPlan};
ghost use Rattle.bac_segment.specs.declared.faults.Taken.TheVariants.{Complete};
ghost use Rattle.bac_segment.specs.Deliveries.{Delivery, key_of};
ghost use Rattle.bac_segment.specs.Tables.{Table, whole};
ghost use Rattle.bac_segment.specs.Taking.{Answer, IsKept, answer, counts, may_add, held};
ghost use Rattle.bac_segment.specs.Pieces.{ArePieces, IsCutOf, cut_fault};
ghost use Rattle.bac_segment.specs.Cuts.{IsOneOf, AreAmong, AreOf, IsGood};
ghost use Rattle.bac_segment.specs.Reassembled.{Reassembled, opened};
ghost use Rattle.bac_segment.specs.Histories.{Delivers, counted, IsAnswer};
ghost use Rattle.bac_segment.specs.Desks.{held_of, IsDesk, AreUsed};
ghost use Rattle.bac_segment.specs.DeskHistories.{DeskCall, taken, closing, DeskRuns, part, since_opened, is_held, IsDeskAnswer};

/// A message has exactly one list of pieces of each size. It has more than 256 pieces of a size exactly where it has
/// more octets than 256 times that size.
pub fn messages_have_one_list_of_pieces()
    ensures exists { (s : List ℕ) (n : ℕ) → 1 ≤ n → (ps : List (List ℕ)) × ArePieces s n ps }
    ensures unique { (s : List ℕ) (n : ℕ) (ps qs : List (List ℕ)) → ArePieces s n ps → ArePieces s n qs → ps ≡ qs }
    ensures many { (s : List ℕ) (n : ℕ) (ps : List (List ℕ)) → ArePieces s n ps → (256 * n < length s) ↔ (256 < length ps) }
{}

/// A segment is kept exactly where it may be added to what is held.
pub fn what_may_be_added_is_kept()
    ensures { (m : Table) (s : Delivery) → (may_add m s ≡ true) ↔ IsKept (answer m s) }
{}

/// A reassembly holds what its segments give. Only those segments count that were answered by what was held. Its key
/// stays.
pub fn what_counts_is_held()
    ensures { (key : Key) (calls : List (Delivery × Answer)) (r : Reassembled) → Delivers (opened key) calls r → (r.key ≡ key) × (r.table ≡ held (counted calls)) }
{}

/// Deliveries after others continue from where those ended.
pub fn deliveries_go_on()
    ensures { (old mid new : Reassembled) (calls more : List (Delivery × Answer)) → Delivers old calls mid → Delivers mid more new → Delivers old (calls ++ more) new }
{}

/// Each answer of a reassembly goes by what the segments before it give. It is never `DeskFull`.
pub fn answers_are_by_what_is_held()
    ensures { (key : Key) (before after : List (Delivery × Answer)) (s : Delivery) (a : Answer) (r : Reassembled) → Delivers (opened key) (before ++ (s, a) ∷ after) r → IsAnswer key (held (counted before)) s a }
{}

/// A whole message stays as it is, and is reported as `Complete` only once.
pub fn whole_once()
    ensures { (old new : Reassembled) (calls : List (Delivery × Answer)) (octets : List ℕ) → whole old.table ≡ Some octets → Delivers old calls new → (whole new.table ≡ Some octets) × AllByRecursion (λ c. c.1 ≢ Ok Complete) calls }
{}

/// Segments of one cut, in any order, some lost and some repeated, give what was cut exactly where each segment of the
/// cut is among them, and otherwise nothing. What is held answers each of them with `Kept`, `Repeat` or `Complete`, and
/// so does a reassembly ([`answers_are_by_what_is_held`]). The last missing one is answered with `Complete`.
pub fn one_cut_gives_what_was_cut()
    ensures joined { (plan : CutPlan) (octets : List ℕ) (segments l : List Delivery) → cut_fault plan octets ≡ None → IsCutOf plan octets segments → AreAmong segments l → (whole (held l) ≡ Some octets) ↔ AreAmong l segments }
    ensures or_none { (plan : CutPlan) (octets : List ℕ) (segments l : List Delivery) → cut_fault plan octets ≡ None → IsCutOf plan octets segments → AreAmong segments l → (whole (held l) ≡ Some octets) ⊎ (whole (held l) ≡ None) }
    ensures answers { (plan : CutPlan) (octets : List ℕ) (segments l : List Delivery) (s : Delivery) → cut_fault plan octets ≡ None → IsCutOf plan octets segments → AreAmong segments l → IsOneOf segments s → IsGood (answer (held l) s) }
    ensures last { (plan : CutPlan) (octets : List ℕ) (segments l : List Delivery) (s : Delivery) → cut_fault plan octets ≡ None → IsCutOf plan octets segments → AreAmong segments l → IsOneOf segments s → AreAmong (l ++ s ∷ []) segments → (AreAmong l segments → ⊥) → answer (held l) s ≡ Ok Complete }
{}

/// If all segments of its key come from one cut, a reassembly has what was cut exactly where each segment of the cut
/// was answered by what was held, and otherwise nothing. Each of its answers is a good one.
pub fn what_was_cut_is_joined()
    ensures joined { (plan : CutPlan) (octets : List ℕ) (segments : List Delivery) (key : Key) (calls : List (Delivery × Answer)) (r : Reassembled) → cut_fault plan octets ≡ None → IsCutOf plan octets segments → AreOf key segments calls → Delivers (opened key) calls r → (whole r.table ≡ Some octets) ↔ AreAmong (counted calls) segments }
    ensures or_none { (plan : CutPlan) (octets : List ℕ) (segments : List Delivery) (key : Key) (calls : List (Delivery × Answer)) (r : Reassembled) → cut_fault plan octets ≡ None → IsCutOf plan octets segments → AreOf key segments calls → Delivers (opened key) calls r → (whole r.table ≡ Some octets) ⊎ (whole r.table ≡ None) }
    ensures answers { (plan : CutPlan) (octets : List ℕ) (segments : List Delivery) (key : Key) (calls : List (Delivery × Answer)) (r : Reassembled) → cut_fault plan octets ≡ None → IsCutOf plan octets segments → AreOf key segments calls → Delivers (opened key) calls r → AllByRecursion (λ c. IsGood c.1) calls }
{}

/// A desk holds of a key what the key's own segments have given since it was closed. Other keys change nothing for it,
/// except by `DeskFull` and by want of memory.
pub fn keys_are_apart()
    ensures { (calls : List DeskCall) (desk : List Reassembled) (key : Key) → DeskRuns [] calls desk → held_of desk key ≡ held (part key calls) }
{}

/// What a desk holds of a key is what the segments between its opening and its closing give. All its segments that were
/// answered by what was held give the same: a refused one that did not open the key adds nothing.
pub fn segments_since_the_opening_are_held()
    ensures opened { (calls : List DeskCall) (desk : List Reassembled) (key : Key) → DeskRuns [] calls desk → held_of desk key ≡ held (since_opened key calls) }
    ensures same { (calls : List DeskCall) (desk : List Reassembled) (key : Key) → DeskRuns [] calls desk → held (since_opened key calls) ≡ held (part key calls) }
{}

/// Calls of a desk after others continue from where those ended.
pub fn desk_calls_go_on()
    ensures { (old mid new : List Reassembled) (calls more : List DeskCall) → DeskRuns old calls mid → DeskRuns mid more new → DeskRuns old (calls ++ more) new }
{}

/// No key of a desk is open twice, at most eight are open, and something is held of each.
pub fn open_keys_are_used()
    ensures { (calls : List DeskCall) (desk : List Reassembled) → DeskRuns [] calls desk → IsDesk desk × AreUsed desk }
{}

/// Each answer of a desk to a segment goes by what is held of its key. It is `DeskFull` exactly where nothing is held
/// of its key and something is held of eight others. It is never `OtherKey`.
pub fn desk_answers_are_by_the_key()
    ensures { (before after : List DeskCall) (desk : List Reassembled) (peer : ℕ) (s : Delivery) (a : Answer) → DeskRuns [] (before ++ taken peer s a ∷ after) desk → IsDeskAnswer before peer s a }
{}

/// Closing a key reports that it was open exactly where something was held of it.
pub fn closing_tells_what_was_held()
    ensures { (before after : List DeskCall) (desk : List Reassembled) (key : Key) (was_open : Bool) → DeskRuns [] (before ++ closing key was_open ∷ after) desk → was_open ≡ is_held before key }
{}

/// If all segments of a key since it was opened come from one cut, a desk has of it what was cut exactly where each
/// segment of the cut was answered by what was held, and otherwise nothing. Each answer to one more segment of the cut
/// is a good one, and to the last missing one it is `Complete`, unless memory is refused or eight other keys are open.
/// A segment that is refused while nothing is held of its key does not open it, so it may come from anywhere.
pub fn a_desk_joins_what_was_cut()
    ensures joined { (plan : CutPlan) (octets : List ℕ) (segments : List Delivery) (key : Key) (calls : List DeskCall) (desk : List Reassembled) → cut_fault plan octets ≡ None → IsCutOf plan octets segments → AreAmong segments (since_opened key calls) → DeskRuns [] calls desk → (whole (held_of desk key) ≡ Some octets) ↔ AreAmong (since_opened key calls) segments }
    ensures or_none { (plan : CutPlan) (octets : List ℕ) (segments : List Delivery) (key : Key) (calls : List DeskCall) (desk : List Reassembled) → cut_fault plan octets ≡ None → IsCutOf plan octets segments → AreAmong segments (since_opened key calls) → DeskRuns [] calls desk → (whole (held_of desk key) ≡ Some octets) ⊎ (whole (held_of desk key) ≡ None) }
    ensures answers { (plan : CutPlan) (octets : List ℕ) (segments : List Delivery) (before after : List DeskCall) (desk : List Reassembled) (peer : ℕ) (s : Delivery) (a : Answer) → cut_fault plan octets ≡ None → IsCutOf plan octets segments → AreAmong segments (since_opened (key_of peer s) before) → IsOneOf segments s → DeskRuns [] (before ++ taken peer s a ∷ after) desk → IsGood a }
    ensures last { (plan : CutPlan) (octets : List ℕ) (segments : List Delivery) (before after : List DeskCall) (desk : List Reassembled) (peer : ℕ) (s : Delivery) (a : Answer) → cut_fault plan octets ≡ None → IsCutOf plan octets segments → AreAmong segments (since_opened (key_of peer s) before) → IsOneOf segments s → AreAmong (since_opened (key_of peer s) before ++ s ∷ []) segments → (AreAmong (since_opened (key_of peer s) before) segments → ⊥) → DeskRuns [] (before ++ taken peer s a ∷ after) desk → counts a ≡ true → a ≡ Ok Complete }
{}
