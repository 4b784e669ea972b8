//! The reply to one order whose rows come in any order, each with its key in columns of its own.
ghost use Rattle.std.specs.Prelude.{◌≡◌, ◌<◌, ◌≤◌, ◌+◌, ◌*◌, ◌↔◌, ℕ, IsTrue, IfOk, IfErr, IfSome, IfNone, OnOk, Some, None, [], drop, map, length, get_or, zip};
ghost use Rattle.std.specs.Arc.{arc_value};
ghost use Rattle.load_memory.specs.Keys.{KeyOf, borrowed_of, cache_of, key_of, same_key};
ghost use Rattle.load_memory.specs.Outcomes.{item_of, rows as rows_item};
ghost use Rattle.flat_rows.specs.Grouped.{AreFirsts, AreGroups, AreWithin, FindsKeys, GroupFault, HasPlaces, fields_key, first_place, first_places, look_by, noted, place_in};
ghost use Rattle.flat_rows.specs.Keyed.{AreAsked, ArePlaces, AreRows, CellsFault, HasColumns, HasNoColumn, IsKeyedReply, KeyedReplyFault, LacksKeyColumn, RowsFault};
ghost use Rattle.flat_rows.specs.Keyed.{by_of, cells_wanted, keyed_items, laid_rows, replied_items, rows_in_sheet, rows_laid, texts_laid, with_faults};

use crate::fault::FlatFault;
use crate::reply::{Totals, lacks_column, share_sheet, wanted};
use crate::texts::FlatTexts;
use load_memory::{CacheKey, Item, Key, KeyMode, KeyRef, Row, Rows, Sheet, cache_key};
use std::alloc::{AllocError, Global};
use std::collections::HashMap;
use std::collections::hash_map::Entry;
use std::sync::Arc;
use thiserror::Error;

/// Rows of the keys of one order, in any order, and faults of some of these keys, as a host lays them out.
#[derive(Clone, Copy)]
pub struct KeyedReply<'h> {
    /// Number of columns.
    pub columns: usize,
    /// Number of rows.
    pub rows: u32,
    /// The places of the keys that have a fault, from 0, each greater than the one before.
    pub faults: &'h [u32],
    /// For each text where it ends in `bytes`: the names of the columns, the fields of all rows, row after row, and then for each of
    /// `faults` why the key has it.
    pub ends: &'h [u32],
    /// The texts, in UTF-8, each from where the one before it ends.
    pub bytes: &'h [u8],
}

/// Says in which columns rows have their keys, and how their loader compares keys.
#[derive(Clone, Copy)]
pub struct KeyedBy<'h> {
    /// The names of the columns, as a key has its texts: one for a text, two for a pair, and none for `All`.
    pub columns: KeyRef<'h>,
    /// Says which keys are the same.
    pub mode: KeyMode,
}

/// Reason why rows in any order aren't taken.
#[derive(Clone, Copy, Debug, PartialEq, Eq, Error)]
pub enum KeyedFault {
    /// A fault is of no key, or its key doesn't come after that of the fault before.
    #[error("a fault is of no key, or its key doesn't come after that of the fault before")]
    BadFaults,
    /// The rows aren't well formed.
    #[error("{0}")]
    Rows(FlatFault),
    /// There are rows, and a column that would have their keys is missing.
    #[error("a column that has the keys is missing")]
    NoKeyColumn,
    /// The row of this number, from 1, has a key that wasn't asked for.
    #[error("row {0} has a key that wasn't asked for")]
    NotAsked(u32),
}

impl From<AllocError> for KeyedFault {
    ghost use Rattle.std.specs.Prelude.{◌≡◌};
    ghost use Rattle.flat_rows.specs.declared.fault.FlatFault.TheVariants.{NoMemory};
    ghost use Rattle.flat_rows.specs.declared.keyed.KeyedFault.TheVariants.{Rows};

    ghost from_gives = { λ _ e. e ≡ Rows NoMemory };

    fn from(_e: AllocError) -> KeyedFault {
        KeyedFault::Rows(FlatFault::NoMemory)
    }
}

impl From<FlatFault> for KeyedFault {
    ghost use Rattle.std.specs.Prelude.{◌≡◌};
    ghost use Rattle.flat_rows.specs.declared.keyed.KeyedFault.TheVariants.{Rows};

    ghost from_gives = { λ fault e. e ≡ Rows fault };

    fn from(e: FlatFault) -> KeyedFault {
        KeyedFault::Rows(e)
    }
}

/// The columns of a row's key, counted from 0.
#[derive(Clone, Copy)]
enum KeyPlaces {
    All,
    One(usize),
    Two(usize, usize),
}

/// For each key that was asked for the place of the first that the loader takes for the same.
type FirstPlaces = HashMap<CacheKey, usize>;

/// The keys that were asked for.
#[derive(Drop)]
struct AskedPlaces {
    first: FirstPlaces,
    // for each key the place of the first that is the same
    of_keys: Vec<usize>,
}

// The places of these columns, where the sheet has all of them.
fn places_of(sheet: &Sheet, columns: KeyRef<'_>) -> Option<KeyPlaces>
    ensures some { IfSome result (λ places.
        HasPlaces sheet.now.names (borrowed_of columns.entry) places) }
    ensures none { IfNone result
        (¬ (HasColumns sheet.now.names (borrowed_of columns.entry))) }
{
    match columns {
        KeyRef::All => Some(KeyPlaces::All),
        KeyRef::Text(one) => Some(KeyPlaces::One(sheet.column(one)?)),
        KeyRef::Pair(one, two) => {
            let one = sheet.column(one)?;
            Some(KeyPlaces::Two(one, sheet.column(two)?))
        }
    }
}

// The places of the columns that have the keys of a sheet's rows. A sheet without rows may lack such columns.
fn key_places(sheet: &Sheet, columns: KeyRef<'_>) -> Option<KeyPlaces>
    ensures some { IfSome result
        (λ places. FindsKeys sheet.now (borrowed_of columns.entry) places) }
    ensures columned { let s = sheet.now in IfSome result
        (λ _. ¬ (LacksKeyColumn s.names (length s.rows) (borrowed_of columns.entry))) }
    ensures none { let s = sheet.now in IfNone result
        (LacksKeyColumn s.names (length s.rows) (borrowed_of columns.entry)) }
{
    let rows = sheet.len();
    match places_of(sheet, columns) {
        Some(places) => Some(places),
        None => {
            if rows == 0 {
                Some(KeyPlaces::All)
            } else {
                None
            }
        }
    }
}

// The key of a row.
fn key_at(sheet: &Sheet, row: u32, places: KeyPlaces) -> KeyRef<'_>
    requires row { row < length sheet.now.rows }
    requires columns { AreWithin places (length sheet.now.names) }
    ensures { borrowed_of result
        ≡ fields_key places (get_or sheet.now.rows row []) }
{
    match places {
        KeyPlaces::All => KeyRef::All,
        KeyPlaces::One(one) => KeyRef::Text(sheet.field(row, one)),
        KeyPlaces::Two(one, two) => KeyRef::Pair(sheet.field(row, one), sheet.field(row, two)),
    }
}

// Notes the place of a key, unless one that is the same was noted before. Returns the place that is noted.
fn note_key(first: &mut FirstPlaces, key: CacheKey, place: usize) -> Result<usize, AllocError>
    ensures noted { OnOk result ((q : KeyOf)
        → place_in first.new q ≡ noted (place_in first.old q) (same_key q (cache_of key)) place) }
    ensures place { IfOk result (λ p.
        place_in first.new (cache_of key) ≡ Some p) }
{
    match first.entry(key)? {
        Entry::Occupied(noted) => Ok(*noted.get()),
        Entry::Vacant(new) => {
            new.insert(place);
            Ok(place)
        }
    }
}

// Notes the places of the keys that are asked for.
fn note_keys(alloc: Global, mode: KeyMode, keys: &[Key]) -> Result<AskedPlaces, AllocError>
    ensures first { IfOk result (λ asked. (q : KeyOf)
        → place_in asked.first q ≡ first_place mode (map key_of keys.now) q) }
    ensures of_keys { IfOk result (λ asked. map (λ p. Some p) asked.of_keys.items
        ≡ first_places mode (map key_of keys.now)) }
{
    let mut first: FirstPlaces = HashMap::new(alloc);
    let mut of_keys = Vec::with_capacity(alloc, keys.len())?;
    for (place, key) in keys.iter().enumerate() {
        let cached = cache_key(alloc, key, mode)?;
        of_keys.push(note_key(&mut first, cached, place)?)?;
    }
    Ok(AskedPlaces { first, of_keys })
}

// The place of the first key that is this one, if it was asked for.
fn place_of(first: &FirstPlaces, key: &CacheKey) -> Option<usize>
    ensures { result
        ≡ place_in first.now (cache_of key.now) }
{
    first.get(key).copied()
}

// No rows, for so many keys.
fn no_rows(alloc: Global, count: usize) -> Result<Vec<Rows>, AllocError>
    ensures many { IfOk result (λ groups.
        length groups.items ≡ count) }
    ensures none { IfOk result (λ groups. (p : ℕ)
        → p < count → get_or groups.items p [] ≡ []) }
{
    let mut groups = Vec::with_capacity(alloc, count)?;
    for _ in 0..count {
        groups.push(Rows::none())?;
    }
    Ok(groups)
}

// The rows of each key that is the first of those that are the same. There are none at the places of the others.
fn group_rows(
    alloc: Global,
    sheet: &Arc<Sheet>,
    by: &KeyedBy<'_>,
    places: KeyPlaces,
    asked: &AskedPlaces,
) -> Result<Vec<Rows>, KeyedFault>
    requires places { FindsKeys (arc_value sheet.now) (borrowed_of by.now.columns) places }
    requires within { (q : KeyOf) → IfSome
        (place_in asked.now.first q) (λ p. p < length asked.now.of_keys.items) }
    ensures groups { let look = look_by (by_of by.now) (place_in asked.now.first) in IfOk result (λ groups.
        AreGroups look (rows_in_sheet (arc_value sheet.now)) (length asked.now.of_keys.items) groups.items) }
    ensures fault { let look = look_by (by_of by.now) (place_in asked.now.first) in IfErr result
        (GroupFault look (rows_in_sheet (arc_value sheet.now))) }
{
    let mut groups = no_rows(alloc, asked.of_keys.len())?;
    let mut key = CacheKey::new();
    for row in 0..sheet.len() {
        key.set(alloc, key_at(sheet, row, places), by.mode)?;
        let Some(place) = place_of(&asked.first, &key) else {
            return Err(KeyedFault::NotAsked(row + 1));
        };
        groups[place].push(alloc, Row::of_sheet(sheet, row)?)?;
    }
    Ok(groups)
}

// The item of the next key: these rows, or where another key is the first that is the same, what that one has.
fn next_item(items: &[Item], rows: Rows, first: usize) -> Result<Item, AllocError>
    requires { first ≤ length items.now }
    ensures own { first ≡ length items.now
        → IfOk result (λ i. item_of i ≡ rows_item rows) }
    ensures other { first < length items.now → IfOk result
        (λ i. item_of i ≡ get_or (map item_of items.now) first (rows_item [])) }
{
    if first == items.len() {
        Ok(Item::Rows(rows))
    } else {
        items[first].clone()
    }
}

// The item of each key: the rows at the place of the first that is the same.
fn items_of(alloc: Global, groups: Vec<Rows>, of_keys: &[usize]) -> Result<Vec<Item>, AllocError>
    requires many { length groups.items ≡ length of_keys.now }
    requires first { AreFirsts of_keys.now }
    ensures { IfOk result (λ items. map item_of items.items
        ≡ map (λ p. rows_item (get_or groups.items p [])) of_keys.now) }
{
    let mut items = Vec::with_capacity(alloc, of_keys.len())?;
    for rows in groups {
        let first = of_keys[items.len()];
        let item = next_item(&items, rows, first)?;
        items.push(item)?;
    }
    Ok(items)
}

// Tells whether these are places of so many keys, each greater than the one before.
fn are_places(keys: usize, places: &[u32]) -> bool
    ensures { IsTrue result ↔ ArePlaces keys places.now }
{
    let mut least = 0;
    for place in places {
        let place = *place as usize;
        if place < least || place >= keys {
            return false;
        }
        least = place + 1;
    }
    true
}

// The items, but that the keys at these places have faults, which are the texts from one on.
fn put_faults(
    alloc: Global,
    mut items: Vec<Item>,
    places: &[u32],
    texts: &FlatTexts<'_>,
    at: usize,
) -> Result<Vec<Item>, AllocError>
    requires places { ArePlaces (length items.items) places.now }
    requires texts { at + length places.now
        ≤ length texts.now }
    ensures { IfOk result (λ put. map item_of put.items
        ≡ with_faults (zip places.now (drop at texts.now)) (map item_of items.items)) }
{
    let _texts = texts.len();
    for (i, place) in places.iter().enumerate() {
        let fault = String::from_str(alloc, texts.get(at + i))?;
        items[*place as usize] = Item::KeyFault(fault);
    }
    Ok(items)
}

// There is a text for each column, for each row and column, and for each fault.
fn check_cells(columns: usize, rows: u32, faults: usize, texts: usize) -> Result<(), FlatFault>
    ensures columned { OnOk result
        (¬ (HasNoColumn columns rows)) }
    ensures texts { OnOk result
        (texts ≡ cells_wanted columns rows + faults) }
    ensures fault { IfErr result
        (CellsFault columns rows faults texts) }
{
    if lacks_column(columns, rows) {
        return Err(FlatFault::NoColumn);
    }
    let Some(wanted) = wanted(columns, &Totals { rows, faults }) else {
        return Err(FlatFault::TooFewTexts);
    };
    if texts < wanted {
        return Err(FlatFault::TooFewTexts);
    }
    if texts > wanted {
        return Err(FlatFault::TextsLeft);
    }
    Ok(())
}

impl<'h> KeyedReply<'h> {
    // The texts, which are as many as the columns, the rows and the faults take.
    fn texts(&self) -> Result<FlatTexts<'h>, FlatFault>
        ensures texts { IfOk result (λ texts.
            texts ≡ texts_laid (laid_rows self.now)) }
        ensures formed { OnOk result (AreRows (laid_rows self.now)) }
        ensures fault { IfErr result
            (RowsFault (laid_rows self.now)) }
    {
        let texts = FlatTexts::new(self.bytes, self.ends)?;
        check_cells(self.columns, self.rows, self.faults.len(), texts.len())?;
        Ok(texts)
    }

    // What the rows say: an item for each key, as if no key had a fault.
    fn row_items(
        &self,
        alloc: Global,
        by: &KeyedBy<'_>,
        keys: &[Key],
        texts: &FlatTexts<'_>,
    ) -> Result<Vec<Item>, KeyedFault>
        requires placed { ArePlaces (length (map key_of keys.now)) self.now.faults.now }
        requires formed { AreRows (laid_rows self.now) }
        requires texts { texts.now ≡ texts_laid (laid_rows self.now) }
        ensures keyed { let given = rows_laid (laid_rows self.now) in IfOk result (λ items.
            map item_of items.items ≡ keyed_items (by_of by.now) (map key_of keys.now) given) }
        ensures asked { OnOk result (AreAsked (by_of by.now)
            (map key_of keys.now) (rows_laid (laid_rows self.now))) }
        ensures fault { IfErr result (KeyedReplyFault
            (by_of by.now) (map key_of keys.now) (laid_rows self.now)) }
    {
        let sheet = texts.sheet(alloc, self.columns, self.rows)?;
        let Some(places) = key_places(&sheet, by.columns) else {
            return Err(KeyedFault::NoKeyColumn);
        };
        let sheet = share_sheet(alloc, sheet)?;
        let asked = note_keys(alloc, by.mode, keys)?;
        let groups = group_rows(alloc, &sheet, by, places, &asked)?;
        Ok(items_of(alloc, groups, &asked.of_keys)?)
    }

    /// An item for each key, in order: its fault, if it has one, or the rows that have it in the columns that `by` names, in the order given,
    /// which are none where no row has it. Keys that are the same to the loader get the same rows. An empty field is the empty text. All
    /// rows share one sheet.
    ///
    /// # Errors
    ///
    /// The first of these that is true: `BadFaults`; `Rows` with `NotUtf8`, `BadEnds`, `NoColumn`, `TooFewTexts` or `TextsLeft`;
    /// `NoKeyColumn`; `NotAsked` with the first row whose key is none of these. `Rows` with `NoMemory` comes when out of memory, before any
    /// fault that would have been found later.
    pub fn items(
        &self,
        alloc: Global,
        by: &KeyedBy<'_>,
        keys: &[Key],
    ) -> Result<Vec<Item>, KeyedFault>
        ensures items { let ks = map key_of keys.now in IfOk result (λ items.
            map item_of items.items ≡ replied_items (by_of by.now) ks (laid_rows self.now)) }
        ensures taken { OnOk result (IsKeyedReply
            (by_of by.now) (map key_of keys.now) (laid_rows self.now)) }
        ensures fault { IfErr result (KeyedReplyFault
            (by_of by.now) (map key_of keys.now) (laid_rows self.now)) }
    {
        if !are_places(keys.len(), self.faults) {
            return Err(KeyedFault::BadFaults);
        }
        let texts = self.texts()?;
        let items = self.row_items(alloc, by, keys, &texts)?;
        let cells = texts.len() - self.faults.len();
        Ok(put_faults(alloc, items, self.faults, &texts, cells)?)
    }
}
