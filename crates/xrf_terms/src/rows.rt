ghost use Rattle.std.specs.Prelude.{◌≡◌, ◌≢◌, ◌↔◌, IfSome, ◌+◌, ◌<◌, ◌≤◌, IsTrue, true, false, length, vec_capacity};
ghost use Rattle.std.specs.List.{position};
ghost use Rattle.std.specs.Ordering.{is_lt};
ghost use Rattle.xrf_terms.specs.Table.{compare_names, is_of, is_later, has_row, row_of, replaced, without, inserted, IsTable};

use xrf_base::Name8;

/// How a terminal came into the table.
#[derive(Clone, Copy, Debug, PartialEq, Eq)]
pub enum How {
    /// By an item of this region.
    On,
    /// By a message of the active.
    Tracked,
    /// At a takeover, switched to its backup session.
    Switched,
    /// At a takeover, acquired again.
    Acquired,
}

/// The row of a terminal: its class, how it came into the table, and the user that is signed on at
/// it.
#[derive(Clone, Copy)]
pub struct Row {
    pub term: Name8,
    pub class: u8,
    pub how: How,
    pub user: Option<Name8>,
}

/// What applying a message did.
#[derive(Clone, Copy, Debug, PartialEq, Eq)]
pub enum Applied {
    /// The table is another than it was.
    Changed,
    /// The table is what it was.
    Same,
    /// The row of a new terminal finds no place, and the table is what it was.
    Full,
}

/// The most rows of a table.
pub const MOST: usize = 64;

// the place of a terminal's row
fn place_of(rows: &[Row], term: Name8) -> Option<usize>
    ensures { result ≡ position (is_of term) rows.now }
{
    rows.iter().position(|row| row.term == term)
}

// whether a name comes before another
fn comes_before(a: Name8, b: Name8) -> bool
    ensures { result ≡ is_lt (compare_names a b) }
{
    a.text().cmp(b.text()).is_lt()
}

// the place of the first row whose name is later
fn later_row(rows: &[Row], term: Name8) -> Option<usize>
    ensures { result ≡ position (is_later term) rows.now }
{
    rows.iter().position(|row| comes_before(term, row.term))
}

/// The row of a terminal, if it has one.
pub fn find_row(rows: &[Row], term: Name8) -> Option<Row>
    ensures row { result ≡ row_of term rows.now }
    ensures own { IfSome result (λ row. has_row row.term rows.now ≡ true) }
{
    match place_of(rows, term) {
        Some(place) => Some(rows[place]),
        None => None,
    }
}

/// Puts a row into its place by name, where its terminal has none.
pub fn insert_row(rows: &mut Vec<Row>, row: Row)
    requires table { IsTable rows.old.items }
    requires room { 64 ≤ vec_capacity rows.old }
    requires absent { has_row row.term rows.old.items ≡ false }
    requires few { length rows.old.items < 64 }
    ensures rows { rows.new.items ≡ inserted row rows.old.items }
    ensures other { rows.new.items ≢ rows.old.items }
    ensures table { IsTable rows.new.items }
    ensures room { 64 ≤ vec_capacity rows.new }
{
    let place = later_row(rows.as_slice(), row.term).unwrap_or(rows.len());
    rows.insert(place, row).unwrap();
}

/// Whether two rows are one.
fn same_row(a: &Row, b: &Row) -> bool
    ensures { IsTrue result ↔ (a.now ≡ b.now) }
{
    if a.term != b.term || a.class != b.class {
        return false;
    }
    if a.how != b.how {
        return false;
    }
    same_user(&a.user, &b.user)
}

fn same_user(a: &Option<Name8>, b: &Option<Name8>) -> bool
    ensures { IsTrue result ↔ (a.now ≡ b.now) }
{
    match (a, b) {
        (None, None) => true,
        (Some(a), Some(b)) => a.text() == b.text(),
        _ => false,
    }
}

/// Puts a row in place of the one of its terminal, and says whether that was another.
pub fn replace_row(rows: &mut Vec<Row>, row: Row) -> bool
    requires table { IsTable rows.old.items }
    requires room { 64 ≤ vec_capacity rows.old }
    requires there { has_row row.term rows.old.items ≡ true }
    ensures rows { rows.new.items ≡ replaced row rows.old.items }
    ensures same { (result ≡ false) ↔ (rows.new.items ≡ rows.old.items) }
    ensures table { IsTable rows.new.items }
    ensures room { 64 ≤ vec_capacity rows.new }
{
    match place_of(rows.as_slice(), row.term) {
        Some(place) => {
            if same_row(&rows[place], &row) {
                return false;
            }
            rows[place] = row;
            true
        }
        None => unreachable!(),
    }
}

/// Removes the row of a terminal, and says whether it had one.
pub fn remove_row(rows: &mut Vec<Row>, term: Name8) -> bool
    requires table { IsTable rows.old.items }
    requires room { 64 ≤ vec_capacity rows.old }
    ensures rows { rows.new.items ≡ without term rows.old.items }
    ensures there { result ≡ has_row term rows.old.items }
    ensures same { (result ≡ false) ↔ (rows.new.items ≡ rows.old.items) }
    ensures table { IsTable rows.new.items }
    ensures room { 64 ≤ vec_capacity rows.new }
{
    match place_of(rows.as_slice(), term) {
        Some(place) => {
            rows.remove(place);
            true
        }
        None => false,
    }
}
