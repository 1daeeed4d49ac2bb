//! Two sessions of a spine, which make changes and ask around them, and what is told of it.

ghost use Rattle.std.specs.Prelude.{◌≡◌, ◌<◌, ◌≤◌, length, true, false, IfOk, OnOk};
ghost use Rattle.sw_query.specs.declared.query.Call.TheVariants.{Select};
ghost use Rattle.sw_rows.specs.declared.table.TheConstants.{MOST_ROWS};
ghost use Rattle.sw_spine.specs.Table.{is_numbered};
ghost use Rattle.sw_spine.specs.History.{CallsBelow, is_select};
ghost use Rattle.sw_spine.specs.Books.{with_session};
ghost use Rattle.test_spine.specs.Benches.{IsAsked, IsAtRest};

use std::alloc::Global;
use sw_lang::{parse_known, write_all, write_number, write_reply};
use sw_rows::{
    Call, Counted, PackedRows, Query, Refusal, Reply, Row, Schema, TextKey, Update, answer,
    update_all,
};
use sw_spine::{KeptEntry, Record, Spine, StateRef};

/// What was told so far.
pub(crate) type Text = Counted<Vec<u8>>;

/// What is done with the spine.
#[derive(Clone, Copy)]
pub(crate) enum Step<'t> {
    /// Session 1 makes the change of this line.
    Change(&'t str),
    /// Session 2 asks for head 0, and session 1 makes a change before the answer.
    Around(&'t str, &'t str),
}

/// A row of a key and three cells.
fn row(key: u64, a: i64, b: i64, c: i64) -> Row
    ensures { result.key ≡ key }
{
    Row {
        key,
        cells: [a, b, c, 0, 0, 0, 0, 0],
    }
}

/// The rows 12,7,1 and 3,8,0 and 12,5,1 and 20,2,0.
pub(crate) fn four_rows(alloc: Global) -> Result<Vec<Row>, Refusal>
    ensures { IfOk result (λ rows. (length rows.items ≡ 4) × (is_numbered 1 rows.items ≡ true)) }
{
    let rows = [
        row(1, 12, 7, 1),
        row(2, 3, 8, 0),
        row(3, 12, 5, 1),
        row(4, 20, 2, 0),
    ];
    match Vec::from_slice(alloc, &rows) {
        Ok(rows) => Ok(rows),
        Err(_) => Err(Refusal::NoMemory),
    }
}

/// The attributes a, b and c.
pub(crate) fn schema(alloc: Global) -> Result<Schema, Refusal>
    ensures { IfOk result (λ schema. length schema ≡ 3) }
{
    let schema = Schema::of(alloc, TextKey::fixed(), &["a:int", "b:int", "c:int"])?;
    if schema.len() == 3 {
        Ok(schema)
    } else {
        Err(Refusal::Input)
    }
}

/// Opens sessions 1 and 2.
fn open_two(spine: &mut Spine) -> Result<(), Refusal>
    ensures { OnOk result (spine.new ≡ with_session (with_session spine.old)) }
{
    spine.open_session()?;
    spine.open_session()?;
    Ok(())
}

/// A spine of so many rows at most, with two sessions, over the rows that head 0 begins from.
pub(crate) fn opened(alloc: Global, rows: &[Row], limit: u64) -> Result<Spine, Refusal>
    requires some { 0 < limit }
    requires few { length rows.now ≤ limit }
    requires most { limit ≤ MOST_ROWS }
    requires numbered { is_numbered 1 rows.now ≡ true }
    ensures { IfOk result (λ spine. IsAtRest spine rows.now) }
{
    let schema = schema(alloc)?;
    let Ok(rows) = PackedRows::of(alloc, rows) else {
        return Err(Refusal::NoMemory);
    };
    let mut spine = Spine::new(alloc, schema, rows, limit)?;
    open_two(&mut spine)?;
    Ok(spine)
}

/// The call of a line.
#[tactic(auto, using(sw_spine::proofs::Histories::fits_below))]
pub(crate) fn call_of(alloc: Global, schema: &Schema, line: &str) -> Result<Call, Refusal>
    ensures { IfOk result (CallsBelow (length schema.now)) }
{
    match parse_known(alloc, schema, 1, line) {
        Ok(Some(call)) => Ok(call),
        Ok(None) => Err(Refusal::Input),
        Err(e) => Err(e),
    }
}

/// Commits a change as session 1.
pub(crate) fn committed(spine: &mut Spine, rows: &[Row], call: Call) -> Result<Reply, Refusal>
    requires rest { IsAtRest spine.old rows.now }
    requires asks { CallsBelow 3 call }
    ensures { OnOk result (IsAtRest spine.new rows.now) }
{
    match &call {
        Call::Insert(_) | Call::Delete(_) | Call::DeleteWhere(_) => spine.commit(1, call),
        Call::Select(_) => Err(Refusal::Input),
    }
}

/// Makes a change as session 1, and tells the reply.
fn change(
    alloc: Global,
    spine: &mut Spine,
    rows: &[Row],
    line: &str,
    text: &mut Text,
) -> Result<(), Refusal>
    requires rest { IsAtRest spine.old rows.now }
    ensures { OnOk result (IsAtRest spine.new rows.now) }
{
    let call = call_of(alloc, spine.schema(), line)?;
    let reply = committed(spine, rows, call)?;
    match spine.entries().last() {
        Some(entry) => write_reply(spine.schema(), entry.call(), &reply, text),
        None => Err(Refusal::Input),
    }
}

/// Session 2 asks for head 0, which takes the updates, and the reply is made.
fn begun(
    alloc: Global,
    spine: &mut Spine,
    rows: &mut Vec<Row>,
    query: &Query,
) -> Result<Reply, Refusal>
    requires rest { IsAtRest spine.old rows.old.items }
    requires asks { CallsBelow 3 (Select query.now) }
    ensures { IfOk result (λ reply. IsAsked reply spine.new rows.new.items) }
{
    let Ok(copy) = query.copied(alloc) else {
        return Err(Refusal::NoMemory);
    };
    let mut inbox = Vec::new(alloc);
    spine.begin(2, copy, 0, &mut inbox)?;
    if update_all(rows, inbox.as_slice()).is_err() {
        return Err(Refusal::NoMemory);
    }
    let reply = answer(alloc, rows.as_slice(), query)?;
    Ok(reply)
}

/// Session 1 makes a change, and then the select is finished.
fn finished(spine: &mut Spine, rows: &[Row], reply: Reply, between: Call) -> Result<(), Refusal>
    requires asked { IsAsked reply spine.old rows.now }
    requires changes { is_select between ≡ false }
    requires asks { CallsBelow 3 between }
    ensures { OnOk result (IsAtRest spine.new rows.now) }
{
    match spine.commit(1, between) {
        Ok(_) => {
            spine.finish(2, reply);
            Ok(())
        }
        Err(e) => Err(e),
    }
}

/// Session 2 asks, and session 1 makes a change before the answer.
fn ask(
    alloc: Global,
    spine: &mut Spine,
    rows: &mut Vec<Row>,
    asked: &Call,
    between: Call,
) -> Result<(), Refusal>
    requires rest { IsAtRest spine.old rows.old.items }
    requires asks { CallsBelow 3 asked.now }
    requires changes { CallsBelow 3 between }
    ensures { OnOk result (IsAtRest spine.new rows.new.items) }
{
    match (asked, &between) {
        (Call::Select(query), Call::Insert(_) | Call::Delete(_) | Call::DeleteWhere(_)) => {
            let reply = begun(alloc, spine, rows, query)?;
            finished(spine, rows.as_slice(), reply, between)
        }
        _ => Err(Refusal::Input),
    }
}

/// Does what a step says.
pub(crate) fn make(
    alloc: Global,
    spine: &mut Spine,
    rows: &mut Vec<Row>,
    step: &Step<'_>,
    text: &mut Text,
) -> Result<(), Refusal>
    requires rest { IsAtRest spine.old rows.old.items }
    ensures { OnOk result (IsAtRest spine.new rows.new.items) }
{
    match step {
        Step::Change(line) => change(alloc, spine, rows.as_slice(), line, text),
        Step::Around(asked, between) => {
            let asked = call_of(alloc, spine.schema(), asked)?;
            let between = call_of(alloc, spine.schema(), between)?;
            ask(alloc, spine, rows, &asked, between)
        }
    }
}

/// Does what steps say, one after the other.
pub(crate) fn make_all(
    alloc: Global,
    spine: &mut Spine,
    rows: &mut Vec<Row>,
    steps: &[Step<'_>],
    text: &mut Text,
) -> Result<(), Refusal>
    requires rest { IsAtRest spine.old rows.old.items }
{
    for step in steps {
        make(alloc, spine, rows, step, text)?;
    }
    Ok(())
}

/// Session 2 begins to count for head 7 and gives it up. It is said whether the select was open, and then void.
pub(crate) fn give_up(
    spine: &mut Spine,
    rows: &[Row],
    query: Query,
    inbox: &mut Vec<Update>,
) -> Result<bool, Refusal>
    requires rest { IsAtRest spine.old rows.now }
    requires asks { CallsBelow 3 (Select query) }
    ensures { OnOk result (IsAtRest spine.new rows.now) }
{
    spine.begin(2, query, 7, inbox)?;
    let was_open = matches!(last(spine), Some(StateRef::Open));
    spine.void(2);
    Ok(was_open && matches!(last(spine), Some(StateRef::Void)))
}

/// The state of the last entry, if there is one.
fn last(spine: &Spine) -> Option<StateRef<'_>> {
    match spine.entries().last() {
        Some(entry) => Some(entry.state()),
        None => None,
    }
}

/// Tells the state of an entry.
fn tell_state(schema: &Schema, entry: &KeptEntry, text: &mut Text) -> Result<(), Refusal> {
    match entry.state() {
        StateRef::Answered(reply) => write_reply(schema, entry.call(), reply, text),
        StateRef::Lines(_) => write_all(text, b"lines\n"),
        StateRef::Open => write_all(text, b"open\n"),
        StateRef::Void => write_all(text, b"void\n"),
    }
}

/// Tells so many things.
fn tell_count(count: u64, of: &str, text: &mut Text) -> Result<(), Refusal> {
    write_number(count, text)?;
    write_all(text, of.as_bytes())
}

/// Tells of the record: the states of its entries, and how much there is of all else.
fn tell_record(record: &Record, text: &mut Text) -> Result<(), Refusal> {
    for entry in &record.entries {
        tell_state(&record.schema, entry, text)?;
    }
    tell_count(record.rows.len() as u64, " rows of ", text)?;
    tell_count(record.limit, " with ", text)?;
    tell_count(record.schema.len() as u64, " attributes\n", text)
}

/// Tells how many updates a spine has, and its limit.
fn tell_counts(spine: &Spine, text: &mut Text) -> Result<(), Refusal> {
    tell_count(spine.update_count(), " updates, at most ", text)?;
    tell_count(spine.limit(), "; ", text)
}

/// Tells of the spine: its counts, and its record.
pub(crate) fn tell(spine: Spine, text: &mut Text) -> Result<(), Refusal> {
    match tell_counts(&spine, text) {
        Ok(()) => tell_record(&spine.into_record(), text),
        Err(e) => Err(e),
    }
}
