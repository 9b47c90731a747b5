//! The last write of each object that was folded.
ghost use Rattle.std.specs.Prelude.{◌≡◌, ◌<◌, ◌==◌, ◌∷◌, [], ℕ, length, slice_get, true, IfOk, OnOk, OnErr, IfSome, IsOkUnless, Some, None, Option, List};
ghost use Rattle.std.specs.FinMap as finite;
ghost use Rattle.std.specs.Option.{option_copied, option_map};
ghost use Rattle.std.specs.Ordering.{on, eq_by_cmp};
ghost use Rattle.indexmap.specs.IndexMap.{get};
ghost use Rattle.occ_types.specs.Object.{object_cmp};
ghost use Rattle.occ_types.specs.declared.fault.Fault.TheVariants.{Memory};
ghost use Rattle.occ_types.specs.PlainData.{object_of};
ghost use Rattle.occ_types.specs.Row as plain;
ghost use Rattle.occ_model.specs.State.{State, apply, put};
ghost use Rattle.occ_sets.specs.PlainSets.{writes_of};
ghost use Rattle.occ_book.specs.Base.{AllFitIn, committed_writes, written};
ghost use Rattle.occ_book.specs.Folded.{objects_of, due_writes, AreThere};
ghost use Rattle.occ_sets.specs.Sets.{ArePlaced};

use crate::tables::Tables;
use indexmap::IndexMap;
use occ_sets::{LogRow, Standing, WriteSet};
use occ_types::{Fault, Object, Row};
use std::alloc::{AllocError, Allocator};
use std::hash::{BuildHasherDefault, FoldHasher};
use std::marker::Model;

// Each object with its row, or with none where it is deleted.
type RowMap<A> = IndexMap<Object<A>, Option<Row<A>>, BuildHasherDefault<FoldHasher>, A>;

// A row, or none, that is due at the place of its object.
type Due<A> = (usize, Option<Row<A>>);

/// The last write of each object that folded rows wrote, found by the hash of the object, and in no order that means anything. Clauses see the list of the plain writes.
#[derive(Drop)]
pub struct FoldedWrites<A: Allocator> {
    map: RowMap<A>,
}

impl<A: Allocator> Model for FoldedWrites<A> {
    ghost use Rattle.std.specs.Prelude.{List};
    ghost use Rattle.occ_model.specs.State.{Write};

    ghost Value = { List Write };

    ghost use Rattle.occ_sets.specs.PlainSets.{writes_of};

    ghost view = { λ folded. writes_of folded.map.entries };
}

impl<A: Allocator> FoldedWrites<A> {
    /// How many objects were written, those that were deleted among them.
    pub fn len(&self) -> usize
        ensures { result ≡ length self.now }
    {
        self.map.len()
    }

    /// Whether nothing was written.
    pub fn is_empty(&self) -> bool
        ensures { result ≡ (length self.now == 0) }
    {
        self.len() == 0
    }

    /// The write at a place: an object with its row, or with none where it is deleted.
    pub fn write_at(&self, place: usize) -> Option<(&Object<A>, Option<&Row<A>>)>
        ensures { option_map (λ w. (object_of w.0.now, option_copied w.1)) result ≡ slice_get self.now place }
    {
        match self.map.get_index(place) {
            None => None,
            Some((object, row)) => Some((object, row.as_ref())),
        }
    }
}

impl<A: Allocator + Copy> FoldedWrites<A> {
    // No writes, which take no memory.
    pub(crate) fn new(alloc: A) -> FoldedWrites<A>
        ensures { result ≡ [] }
    {
        FoldedWrites {
            map: RowMap::new(alloc),
        }
    }

    // Takes in what the committed ones of some rows write, all or none; `origin` has the rows of the objects that were not written. The time is that of a search for each write. A refusal leaves the state as it was.
    pub(crate) fn fold<O>(&mut self, origin: &Tables<A>, rows: &[LogRow<A, O>]) -> Result<(), Fault>
        ensures ok { OnOk result (apply origin.now.state self.new ≡ written (apply origin.now.state self.old) rows.now) }
        ensures err { OnErr result (apply origin.now.state self.new ≡ apply origin.now.state self.old) }
        ensures placed { (tables sessions : ℕ) → ArePlaced tables self.old → AllFitIn tables sessions rows.now → ArePlaced tables self.new }
        ensures memory { IsOkUnless result Memory }
    {
        let mut due = Vec::new(*self.map.allocator());
        note_rows(&mut self.map, origin, rows, &mut due)?;
        let deletes = has_deletion(&due);
        do_due(&mut self.map, due);
        forget_deleted(&mut self.map, origin, rows, deletes);
        Ok(())
    }
}

// Notes what the committed ones of some rows write, and takes room for it. The state stays as it is.
fn note_rows<A: Allocator + Copy, O>(
    map: &mut RowMap<A>,
    origin: &Tables<A>,
    rows: &[LogRow<A, O>],
    due: &mut Vec<Due<A>, A>,
) -> Result<(), Fault>
    requires { AreThere map.old.entries due.old.items }
    ensures same { apply origin.now.state (writes_of map.new.entries) ≡ apply origin.now.state (writes_of map.old.entries) }
    ensures placed { (tables sessions : ℕ) → ArePlaced tables (writes_of map.old.entries) → AllFitIn tables sessions rows.now → ArePlaced tables (writes_of map.new.entries) }
    ensures there { OnOk result (AreThere map.new.entries due.new.items) }
    ensures noted { OnOk result ((state : State) → apply state (due_writes map.new.entries due.new.items) ≡ written (apply state (due_writes map.old.entries due.old.items)) rows.now) }
    ensures memory { IsOkUnless result Memory }
{
    for row in rows {
        note_row(map, origin, row, due)?;
    }
    Ok(())
}

// Notes what a row writes, where it is committed.
fn note_row<A: Allocator + Copy, O>(
    map: &mut RowMap<A>,
    origin: &Tables<A>,
    row: &LogRow<A, O>,
    due: &mut Vec<Due<A>, A>,
) -> Result<(), Fault>
    requires { AreThere map.old.entries due.old.items }
    ensures same { apply origin.now.state (writes_of map.new.entries) ≡ apply origin.now.state (writes_of map.old.entries) }
    ensures placed { (tables : ℕ) → ArePlaced tables (writes_of map.old.entries) → ArePlaced tables row.now.writes → ArePlaced tables (writes_of map.new.entries) }
    ensures there { OnOk result (AreThere map.new.entries due.new.items) }
    ensures noted { OnOk result ((state : State) → apply state (due_writes map.new.entries due.new.items) ≡ apply (apply state (due_writes map.old.entries due.old.items)) (committed_writes row.now)) }
    ensures memory { IsOkUnless result Memory }
{
    match &row.standing {
        Standing::Writing(_) | Standing::Done(_) => note_writes(map, origin, &row.writes, due),
        Standing::Open(_) | Standing::Back(_) => Ok(()),
    }
}

// Notes the writes of a set.
fn note_writes<A: Allocator + Copy>(
    map: &mut RowMap<A>,
    origin: &Tables<A>,
    writes: &WriteSet<A>,
    due: &mut Vec<Due<A>, A>,
) -> Result<(), Fault>
    requires { AreThere map.old.entries due.old.items }
    ensures same { apply origin.now.state (writes_of map.new.entries) ≡ apply origin.now.state (writes_of map.old.entries) }
    ensures placed { (tables : ℕ) → ArePlaced tables (writes_of map.old.entries) → ArePlaced tables writes.now → ArePlaced tables (writes_of map.new.entries) }
    ensures there { OnOk result (AreThere map.new.entries due.new.items) }
    ensures noted { OnOk result ((state : State) → apply state (due_writes map.new.entries due.new.items) ≡ apply (apply state (due_writes map.old.entries due.old.items)) writes.now) }
    ensures memory { IsOkUnless result Memory }
{
    for place in 0..writes.len() {
        if let Some((object, row)) = writes.write_at(place) {
            note_write(map, origin, object, row, due)?;
        }
    }
    Ok(())
}

// Notes a write.
fn note_write<A: Allocator + Copy>(
    map: &mut RowMap<A>,
    origin: &Tables<A>,
    object: &Object<A>,
    row: Option<&Row<A>>,
    due: &mut Vec<Due<A>, A>,
) -> Result<(), Fault>
    requires { AreThere map.old.entries due.old.items }
    ensures same { apply origin.now.state (writes_of map.new.entries) ≡ apply origin.now.state (writes_of map.old.entries) }
    ensures placed { (tables : ℕ) → ArePlaced tables (writes_of map.old.entries) → object.now.table < tables → ArePlaced tables (writes_of map.new.entries) }
    ensures there { OnOk result (AreThere map.new.entries due.new.items) }
    ensures noted { OnOk result ((state : State) → apply state (due_writes map.new.entries due.new.items) ≡ put (apply state (due_writes map.old.entries due.old.items)) (object_of object.now, option_copied row.entry)) }
    ensures memory { IsOkUnless result Memory }
{
    let copy = copy_of(row)?;
    due.reserve(1)?;
    let place = place_of(map, origin, object)?;
    due.push_reserved((place, copy));
    Ok(())
}

// A copy of a row, or none of none.
fn copy_of<A: Allocator + Copy>(row: Option<&Row<A>>) -> Result<Option<Row<A>>, Fault>
    ensures copied { IfOk result (λ copy. copy ≡ option_copied row.entry) }
    ensures memory { IsOkUnless result Memory }
{
    match row {
        Some(row) => {
            let copy = row.clone()?;
            Ok(Some(copy))
        }
        None => Ok(None),
    }
}

// The place of an object. One that was not written comes in with its row of `origin`, so that the state stays as it is.
fn place_of<A: Allocator + Copy>(
    map: &mut RowMap<A>,
    origin: &Tables<A>,
    object: &Object<A>,
) -> Result<usize, Fault>
    ensures same { apply origin.now.state (writes_of map.new.entries) ≡ apply origin.now.state (writes_of map.old.entries) }
    ensures placed { (tables : ℕ) → ArePlaced tables (writes_of map.old.entries) → object.now.table < tables → ArePlaced tables (writes_of map.new.entries) }
    ensures place { IfOk result (λ place. slice_get (objects_of map.new.entries) place ≡ Some (object_of object.now)) }
    ensures kept { (due : List (ℕ × Option plain.Row)) → AreThere map.old.entries due → AreThere map.new.entries due × (due_writes map.new.entries due ≡ due_writes map.old.entries due) }
    ensures memory { IsOkUnless result Memory }
{
    if let Some(place) = map.get_index_of(object) {
        return Ok(place);
    }
    let row = copy_of(origin.row(object.table, &object.key))?;
    let place = map.len();
    map.insert(object.clone()?, row)?;
    Ok(place)
}

// Whether some write that is due deletes its object.
fn has_deletion<A: Allocator>(due: &Vec<Due<A>, A>) -> bool {
    due.iter().any(|due| due.1.is_none())
}

// Does the writes that are due, one after another. It takes no memory.
fn do_due<A: Allocator + Copy>(map: &mut RowMap<A>, due: Vec<Due<A>, A>)
    ensures objects { objects_of map.new.entries ≡ objects_of map.old.entries }
    ensures done { (state : State) → apply state (writes_of map.new.entries) ≡ apply (apply state (writes_of map.old.entries)) (due_writes map.old.entries due.items) }
{
    for (place, row) in due {
        set_row(map, place, row);
    }
}

// Sets the row at a place, where there is one.
fn set_row<A: Allocator>(map: &mut RowMap<A>, place: usize, row: Option<Row<A>>)
    ensures objects { objects_of map.new.entries ≡ objects_of map.old.entries }
    ensures done { (state : State) → apply state (writes_of map.new.entries) ≡ apply (apply state (writes_of map.old.entries)) (due_writes map.old.entries ((place, row) ∷ [])) }
{
    if let Some(stored) = map.get_index_mut(place) {
        *stored = row;
    }
}

// Lets go of the objects that some rows write and that are in no state any more, where there are some. The state stays as it is.
fn forget_deleted<A: Allocator + Clone, O>(
    map: &mut RowMap<A>,
    origin: &Tables<A>,
    rows: &[LogRow<A, O>],
    deletes: bool,
)
    ensures same { apply origin.now.state (writes_of map.new.entries) ≡ apply origin.now.state (writes_of map.old.entries) }
    ensures placed { (tables : ℕ) → ArePlaced tables (writes_of map.old.entries) → ArePlaced tables (writes_of map.new.entries) }
{
    if !deletes {
        return;
    }
    for row in rows {
        forget_writes(map, origin, &row.writes);
    }
}

// The same for the objects of a set.
fn forget_writes<A: Allocator + Clone>(
    map: &mut RowMap<A>,
    origin: &Tables<A>,
    writes: &WriteSet<A>,
)
    ensures same { apply origin.now.state (writes_of map.new.entries) ≡ apply origin.now.state (writes_of map.old.entries) }
    ensures placed { (tables : ℕ) → ArePlaced tables (writes_of map.old.entries) → ArePlaced tables (writes_of map.new.entries) }
{
    for place in 0..writes.len() {
        forget_at(map, origin, writes, place);
    }
}

// The same for the object of the write at a place, where that deletes it.
fn forget_at<A: Allocator + Clone>(
    map: &mut RowMap<A>,
    origin: &Tables<A>,
    writes: &WriteSet<A>,
    place: usize,
)
    ensures same { apply origin.now.state (writes_of map.new.entries) ≡ apply origin.now.state (writes_of map.old.entries) }
    ensures placed { (tables : ℕ) → ArePlaced tables (writes_of map.old.entries) → ArePlaced tables (writes_of map.new.entries) }
{
    if let Some((object, None)) = writes.write_at(place) {
        forget(map, origin, object);
    }
}

// Lets go of an object that has no row, and none in `origin`.
fn forget<A: Allocator + Clone>(map: &mut RowMap<A>, origin: &Tables<A>, object: &Object<A>)
    ensures same { apply origin.now.state (writes_of map.new.entries) ≡ apply origin.now.state (writes_of map.old.entries) }
    ensures placed { (tables : ℕ) → ArePlaced tables (writes_of map.old.entries) → ArePlaced tables (writes_of map.new.entries) }
{
    if is_gone(map, origin, object) {
        // `len` tells that no object stands twice
        let _objects = map.len();
        let _gone = map.swap_remove(object);
    }
}

// Whether an object is noted as deleted, and has no row in `origin`.
fn is_gone<A: Allocator + Clone>(map: &RowMap<A>, origin: &Tables<A>, object: &Object<A>) -> bool
    ensures { result ≡ true → (finite.get origin.now.state (object_of object.now) ≡ None) × (get (on object_of (eq_by_cmp object_cmp)) map.now object.now ≡ Some None) }
{
    match map.get(object) {
        Some(None) => origin.row(object.table, &object.key).is_none(),
        _ => false,
    }
}

impl<A: Allocator + Clone> Clone for FoldedWrites<A> {
    ghost is_clone = { λ source copy. copy ≡ source };

    fn clone(&self) -> Result<FoldedWrites<A>, AllocError> {
        Ok(FoldedWrites {
            map: self.map.clone()?,
        })
    }
}
