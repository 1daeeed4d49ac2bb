//! Calls of logs become those that the search sees.

use crate::index::Index;
use crate::problem::Problem;
use crate::replies::{key_of, number_between, short_reply, weighing};
use crate::small::{NOTHING, Part, at, put};
use crate::tasks::{Act, MANY, Range, Task, Weigh};
use std::alloc::{AllocError, Global};
use std::collections::BTreeMap;
use sw_logs::{By, Logged, Opening};
use sw_rows::{Bound, Call, Cond, Reply, ReplyRows, Schema, Want};
use sw_spine::{Lines, MOST_SESSIONS};

/// How an order is looked for.
#[derive(Clone, Copy)]
pub struct Rules {
    /// Which calls have to stand before which.
    pub by: By,
    /// Whether keys are whatever the store gave, in place of 1, 2, 3 and so on in the order of inserts.
    pub any_keys: bool,
    /// How many states are remembered at most.
    pub states: u64,
}

/// What is known while calls become tasks.
struct Builder {
    alloc: Global,
    problem: Problem,
    /// The rows of the keys that inserts of known outcome gave.
    rows: BTreeMap<u64, usize>,
    /// The rows of inserts of unknown outcome.
    unnamed: Vec<usize>,
    /// The number of each session among those that made calls.
    session_numbers: Vec<Option<usize>>,
}

// By hand, as with `Problem`.
impl Drop for Builder {
    fn drop(self) {
        let Self {
            alloc: _,
            problem: _problem,
            rows: _rows,
            unnamed: _unnamed,
            session_numbers: _session_numbers,
        } = self;
    }
}

/// The least cell that is not left of a lower bound; None where there is none.
fn low_of(lower: Option<Bound>) -> Option<i64> {
    match lower {
        None => Some(i64::MIN),
        Some(Bound::Before(value)) => Some(value),
        Some(Bound::After(value)) => value.checked_add(1),
    }
}

/// The greatest cell that is left of an upper bound; None where there is none.
fn high_of(upper: Option<Bound>) -> Option<i64> {
    match upper {
        None => Some(i64::MAX),
        Some(Bound::Before(value)) => value.checked_sub(1),
        Some(Bound::After(value)) => Some(value),
    }
}

/// The cells that a condition takes.
fn range_of(cond: &Cond) -> Range {
    match (low_of(cond.lower), high_of(cond.upper)) {
        (Some(low), Some(high)) => Range {
            attr: cond.attr,
            low,
            high,
        },
        _ => Range {
            attr: cond.attr,
            low: 1,
            high: 0,
        },
    }
}

/// The key that an insert was given, as its log tells; keys are above 0.
fn key_told(lines: &Lines) -> Option<u64> {
    match lines.as_slice() {
        [line] => match number_between(line.as_str(), "key ", "") {
            Some(0) => None,
            key => key,
        },
        _ => None,
    }
}

/// When a call that began after which stands behind it: of unknown outcome there is none such.
fn last_of(call: &Logged, by: By) -> u64 {
    match by {
        By::Times { slack } if call.reply.is_some() => call.end.saturating_add(slack),
        _ => u64::MAX,
    }
}

fn start_of(call: &Logged, by: By) -> u64 {
    match by {
        By::Times { .. } => call.start,
        By::Sessions => 0,
    }
}

/// What a row shows.
fn shown(row: &[i64; 8], attrs: &[usize], out: &mut Vec<i64>) -> Result<(), AllocError> {
    out.clear();
    for attr in attrs {
        out.push(at(row, *attr, 0))?;
    }
    Ok(())
}

impl Builder {
    fn new(alloc: Global, opening: &Opening, rules: Rules) -> Result<Builder, AllocError> {
        let mut builder = Builder {
            alloc,
            problem: Problem::new(alloc, opening.limit, rules),
            rows: BTreeMap::new(alloc),
            unnamed: Vec::new(alloc),
            session_numbers: Vec::new(alloc),
        };
        builder.begin(opening)?;
        Ok(builder)
    }

    /// Takes the opening rows in.
    fn begin(&mut self, opening: &Opening) -> Result<(), AllocError> {
        self.session_numbers = vec![in self.alloc; None; MOST_SESSIONS + 1]?;
        let count = opening.rows.len();
        self.problem.cells.reserve(count)?;
        self.problem.keys.reserve(count)?;
        self.problem.makers.reserve(count)?;
        for place in 0..count {
            let row = opening.rows.get(place);
            self.problem.cells.push(row.cells)?;
            self.problem.keys.push(row.key)?;
            self.problem.makers.push(None)?;
        }
        self.problem.opening = count;
        Ok(())
    }

    /// What the search is given.
    fn into_problem(self) -> Problem {
        let Self {
            alloc: _,
            problem,
            rows: _rows,
            unnamed: _unnamed,
            session_numbers: _session_numbers,
        } = self;
        problem
    }

    /// Takes the calls in.
    fn add_calls(
        &mut self,
        schema: &Schema,
        calls: &[Logged],
        rules: Rules,
    ) -> Result<(), AllocError> {
        self.add_rows(calls)?;
        if rules.any_keys && !self.unnamed.is_empty() {
            self.name_all(schema, calls)?;
        }
        self.add_tasks(schema, calls, rules.by)?;
        self.add_indexes(schema.len())?;
        for session in 0..self.problem.sessions.len() {
            self.add_leasts(session);
        }
        Ok(())
    }

    /// Adds a row that an insert brings.
    fn add_row(&mut self, cells: [i64; 8], key: u64) -> Result<(), AllocError> {
        let row = self.problem.cells.len();
        self.problem.cells.push(cells)?;
        self.problem.keys.push(key)?;
        self.problem.makers.push(None)?;
        if key == 0 {
            self.unnamed.push(row)?;
        } else if !self.rows.contains_key(&key) {
            self.rows.insert(key, row)?;
        }
        Ok(())
    }

    /// Adds the rows that inserts bring, in the order of the calls.
    fn add_rows(&mut self, calls: &[Logged]) -> Result<(), AllocError> {
        for call in calls {
            if let Call::Insert(cells) = &call.call {
                let key = match &call.reply {
                    None => Some(0),
                    Some(lines) => key_told(lines),
                };
                if let Some(key) = key {
                    self.add_row(*cells, key)?;
                }
            }
        }
        Ok(())
    }

    /// The row of a key, where it is known which has it.
    fn row_of(&self, key: u64) -> Option<usize> {
        if key >= 1 && key <= self.problem.opening as u64 {
            return Some(key as usize - 1);
        }
        self.rows.get(&key).copied()
    }

    /// The ranges of conditions.
    fn add_ranges(&mut self, conds: &[Cond]) -> Result<Part, AllocError> {
        let from = self.problem.ranges.len();
        for cond in conds {
            self.problem.ranges.push(range_of(cond))?;
        }
        Ok(Part {
            from,
            to: self.problem.ranges.len(),
        })
    }

    /// The number of a session.
    fn session_of(&mut self, session: u64) -> Result<usize, AllocError> {
        let place = session as usize;
        if let Some(number) = at(&self.session_numbers, place, None) {
            return Ok(number);
        }
        let number = self.problem.sessions.len();
        self.problem.sessions.push(Vec::new(self.alloc))?;
        put(&mut self.session_numbers, place, Some(number));
        Ok(number)
    }

    /// The task of a call before its reply is looked at.
    fn framed(&mut self, number: usize, call: &Logged, by: By) -> Result<Task, AllocError> {
        let conds = match &call.call {
            Call::Select(query) => self.add_ranges(query.conds.as_slice())?,
            Call::DeleteWhere(conds) => self.add_ranges(conds.as_slice())?,
            _ => NOTHING,
        };
        Ok(Task {
            number,
            session: self.session_of(call.session)?,
            start: start_of(call, by),
            last: last_of(call, by),
            end: call.end,
            is_known: call.reply.is_some(),
            act: Act::Never,
            ranges: conds,
            given: NOTHING,
            least: 0,
            most: 0,
        })
    }
}

/// A query of rows, with its reply as a log has it.
#[derive(Clone, Copy)]
struct Asked<'a> {
    schema: &'a Schema,
    call: &'a Call,
    attrs: &'a [usize],
    lines: &'a [String],
}

impl Asked<'_> {
    /// Whether a line of the reply is a given one.
    fn has_line(&self, place: usize, printed: &[String], other: usize) -> bool {
        match (self.lines.get(place), printed.get(other)) {
            (Some(line), Some(second)) => line.as_str() == second.as_str(),
            _ => false,
        }
    }
}

/// The rows of a reply that were found, and those of them whose lines are still to be compared.
#[derive(Drop)]
struct Found {
    pairs: Vec<(usize, u64)>,
    rows: ReplyRows,
    places: Vec<usize>,
}

/// A query of rows with its reply, if a call of a log is one.
fn asked_of<'a>(schema: &'a Schema, call: &'a Call, lines: &'a Lines) -> Option<Asked<'a>> {
    match call {
        Call::Select(query) => match &query.want {
            Want::Rows(attrs) => Some(Asked {
                schema,
                call,
                attrs: attrs.as_slice(),
                lines: lines.as_slice(),
            }),
            _ => None,
        },
        _ => None,
    }
}

impl Builder {
    /// Adds a row to those of a reply.
    fn add_shown(
        &self,
        asked: &Asked<'_>,
        row: usize,
        key: u64,
        rows: &mut ReplyRows,
    ) -> Result<(), AllocError> {
        let mut cells = Vec::new(self.alloc);
        shown(
            &at(&self.problem.cells, row, [0; 8]),
            asked.attrs,
            &mut cells,
        )?;
        rows.push(key, cells.as_slice())
    }

    /// Whether a line of a reply shows a row under a key.
    fn shows(
        &self,
        asked: &Asked<'_>,
        place: usize,
        row: usize,
        key: u64,
    ) -> Result<bool, AllocError> {
        let mut rows = ReplyRows::new(self.alloc);
        self.add_shown(asked, row, key, &mut rows)?;
        let printed = Lines::of_reply(self.alloc, asked.schema, asked.call, &Reply::Rows(rows))?;
        Ok(asked.has_line(place, printed.as_slice(), 0))
    }

    /// Adds the rows of unknown outcome that a line of a reply may show.
    fn find_unnamed(
        &self,
        asked: &Asked<'_>,
        place: usize,
        key: u64,
        pairs: &mut Vec<(usize, u64)>,
    ) -> Result<(), AllocError> {
        for row in &self.unnamed {
            if self.shows(asked, place, *row, key)? {
                pairs.push((*row, key))?;
            }
        }
        Ok(())
    }

    /// The first row of unknown outcome without a key that a line of a reply may show.
    fn nameless(
        &self,
        asked: &Asked<'_>,
        place: usize,
        key: u64,
    ) -> Result<Option<usize>, AllocError> {
        for row in &self.unnamed {
            if at(&self.problem.keys, *row, 1) == 0 && self.shows(asked, place, *row, key)? {
                return Ok(Some(*row));
            }
        }
        Ok(None)
    }

    /// Takes the key of a reply's line to be that of a row of unknown outcome, where no insert was given it.
    fn name_row(&mut self, asked: &Asked<'_>, place: usize) -> Result<(), AllocError> {
        let line = match asked.lines.get(place) {
            Some(line) => line.as_str(),
            None => "",
        };
        let Some(key) = key_of(line) else {
            return Ok(());
        };
        if self.row_of(key).is_some() {
            return Ok(());
        }
        if let Some(row) = self.nameless(asked, place, key)? {
            put(&mut self.problem.keys, row, key);
            self.rows.insert(key, row)?;
        }
        Ok(())
    }

    /// Takes the keys of a reply's lines to be those of rows of unknown outcome.
    fn name_rows(&mut self, asked: &Asked<'_>) -> Result<(), AllocError> {
        for place in 0..asked.lines.len() {
            self.name_row(asked, place)?;
        }
        Ok(())
    }

    /// Gives rows of unknown outcome the keys that replies show and no insert was given.
    fn name_all(&mut self, schema: &Schema, calls: &[Logged]) -> Result<(), AllocError> {
        for call in calls {
            if let Some(lines) = &call.reply {
                if let Some(asked) = asked_of(schema, &call.call, lines) {
                    self.name_rows(&asked)?;
                }
            }
        }
        Ok(())
    }

    /// Adds what the line of a row shows.
    fn find_row(
        &self,
        asked: &Asked<'_>,
        place: usize,
        key: u64,
        found: &mut Found,
    ) -> Result<(), AllocError> {
        match self.row_of(key) {
            None => self.find_unnamed(asked, place, key, &mut found.pairs),
            Some(row) => {
                found.pairs.push((row, key))?;
                found.places.push(place)?;
                self.add_shown(asked, row, key, &mut found.rows)
            }
        }
    }

    /// The rows that lines of a reply show; None where one shows none.
    fn find_rows(&self, asked: &Asked<'_>, rows: &[String]) -> Result<Option<Found>, AllocError> {
        let mut found = Found {
            pairs: Vec::new(self.alloc),
            rows: ReplyRows::new(self.alloc),
            places: Vec::new(self.alloc),
        };
        for (place, line) in rows.iter().enumerate() {
            let Some(key) = key_of(line.as_str()) else {
                return Ok(None);
            };
            self.find_row(asked, place, key, &mut found)?;
        }
        Ok(Some(found))
    }

    /// Whether lines show the rows that were found for them.
    fn are_shown(&self, asked: &Asked<'_>, found: &Found) -> Result<bool, AllocError> {
        let copy = found.rows.copied(self.alloc)?;
        let printed = Lines::of_reply(self.alloc, asked.schema, asked.call, &Reply::Rows(copy))?;
        for (number, place) in found.places.iter().enumerate() {
            if !asked.has_line(*place, printed.as_slice(), number) {
                return Ok(false);
            }
        }
        Ok(true)
    }

    /// Keeps the rows of a reply, in ascending order.
    fn keep_rows(&mut self, pairs: &mut Vec<(usize, u64)>) -> Result<Part, AllocError> {
        pairs.sort_unstable();
        let from = self.problem.given.len();
        self.problem.given.extend_from_slice(pairs.as_slice())?;
        Ok(Part {
            from,
            to: self.problem.given.len(),
        })
    }

    /// Reads the reply to a query of rows.
    fn read_rows(&mut self, asked: &Asked<'_>, task: &mut Task) -> Result<(), AllocError> {
        let Some((last, rows)) = asked.lines.split_last() else {
            return Ok(());
        };
        if number_between(last.as_str(), "(", " rows)") != Some(rows.len() as u64) {
            return Ok(());
        }
        let Some(mut found) = self.find_rows(asked, rows)? else {
            return Ok(());
        };
        if self.are_shown(asked, &found)? {
            task.given = self.keep_rows(&mut found.pairs)?;
            task.least = rows.len() as i128;
            task.most = task.least;
            task.act = Act::Read(Weigh::Given);
        }
        Ok(())
    }

    /// Reads the reply of one line to a call that is no insert.
    fn read_short(&mut self, call: &Call, reply: &Reply, task: &mut Task) {
        match (call, reply) {
            (Call::Select(query), _) => {
                if let Some((weigh, least, most)) = weighing(query, reply) {
                    task.act = Act::Read(weigh);
                    task.least = least;
                    task.most = most;
                }
            }
            (Call::Delete(key), Reply::Removed) => task.act = Act::Remove(self.row_of(*key), *key),
            (Call::Delete(key), Reply::NoSuchKey) => {
                task.act = Act::Miss(self.row_of(*key), *key);
            }
            (Call::DeleteWhere(_), Reply::RemovedMany(many)) => {
                task.least = i128::from(*many);
                task.most = task.least;
                task.act = if *many == 0 {
                    Act::Read(Weigh::One)
                } else {
                    Act::Sweep
                };
            }
            (Call::Insert(_), Reply::Full) => task.act = Act::Full,
            _ => {}
        }
    }

    /// Reads the reply of a call that brings no row.
    fn read_reply(
        &mut self,
        schema: &Schema,
        call: &Call,
        lines: &Lines,
        task: &mut Task,
    ) -> Result<(), AllocError> {
        if let Some(asked) = asked_of(schema, call, lines) {
            return self.read_rows(&asked, task);
        }
        if let Some(reply) = short_reply(self.alloc, schema, call, lines)? {
            self.read_short(call, &reply, task);
        }
        Ok(())
    }

    /// What a call of unknown outcome may do, if it may change anything.
    fn read_unknown(&mut self, call: &Call, task: &mut Task) {
        match call {
            Call::Delete(key) => task.act = Act::Remove(self.row_of(*key), *key),
            Call::DeleteWhere(_) => {
                task.act = Act::Sweep;
                task.least = 1;
                task.most = MANY;
            }
            _ => {}
        }
    }

    /// Whether a row has a key that no other row has, where keys are whatever the store gave.
    fn is_own(&self, row: usize, key: u64) -> bool {
        !self.problem.any_keys || key == 0 || self.row_of(key) == Some(row)
    }

    /// The row that the next insert brings, with its call noted.
    fn take_row(&mut self, next: &mut usize, task: &mut Task) {
        let row = *next;
        let key = at(&self.problem.keys, row, 0);
        let number = self.problem.tasks.len();
        if self.is_own(row, key) {
            put(&mut self.problem.makers, row, Some(number));
            task.act = Act::Insert(row, key);
        }
        *next = row.saturating_add(1);
    }

    /// Reads what a call does, with its reply.
    fn read_act(
        &mut self,
        schema: &Schema,
        call: &Logged,
        next: &mut usize,
        task: &mut Task,
    ) -> Result<(), AllocError> {
        if brings_row(call) {
            self.take_row(next, task);
            return Ok(());
        }
        match &call.reply {
            Some(lines) => self.read_reply(schema, &call.call, lines, task),
            None => {
                self.read_unknown(&call.call, task);
                Ok(())
            }
        }
    }

    /// How many calls of known outcome a session has so far.
    fn count_of(&self, session: usize) -> usize {
        match self.problem.sessions.get(session) {
            Some(tasks) => tasks.len(),
            None => 0,
        }
    }

    /// Adds a call's task.
    fn add_task(&mut self, task: Task) -> Result<(), AllocError> {
        let number = self.problem.tasks.len();
        self.problem.tasks.push(task)?;
        self.problem.earliest.push(task.start)?;
        self.problem.soonest.push(task.last)?;
        if task.is_known {
            self.problem.known = self.problem.known.saturating_add(1);
            if let Some(tasks) = self.problem.sessions.get_mut(task.session) {
                tasks.push(number)?;
            }
        } else if !matches!(task.act, Act::Never) {
            let before = self.count_of(task.session);
            self.problem.loose.push((number, before))?;
        }
        Ok(())
    }

    /// Adds the tasks of all calls.
    fn add_tasks(&mut self, schema: &Schema, calls: &[Logged], by: By) -> Result<(), AllocError> {
        let mut next = self.problem.opening;
        for (number, call) in calls.iter().enumerate() {
            let mut task = self.framed(number, call, by)?;
            self.read_act(schema, call, &mut next, &mut task)?;
            self.add_task(task)?;
        }
        Ok(())
    }

    /// Sorts the rows by each attribute.
    fn add_indexes(&mut self, width: usize) -> Result<(), AllocError> {
        for attr in 0..width {
            let index = Index::of(self.alloc, &self.problem.cells, attr)?;
            self.problem.indexes.push(index)?;
        }
        Ok(())
    }

    /// Takes the least start and the least `last` of a session's calls from each on.
    fn add_leasts(&mut self, session: usize) {
        let mut start = u64::MAX;
        let mut last = u64::MAX;
        let count = self.count_of(session);
        for back in 0..count {
            let number = self.number_at(session, count - 1 - back);
            start = start.min(self.problem.task(number).start);
            last = last.min(self.problem.task(number).last);
            put(&mut self.problem.earliest, number, start);
            put(&mut self.problem.soonest, number, last);
        }
    }

    /// The call of a session at a place.
    fn number_at(&self, session: usize, place: usize) -> usize {
        match self.problem.sessions.get(session) {
            Some(tasks) => at(tasks, place, 0),
            None => 0,
        }
    }
}

/// Whether a call brings a row, where it takes effect as its log tells.
fn brings_row(call: &Logged) -> bool {
    match (&call.call, &call.reply) {
        (Call::Insert(_), None) => true,
        (Call::Insert(_), Some(lines)) => key_told(lines).is_some(),
        _ => false,
    }
}

/// What the search is given for the calls of logs.
pub(crate) fn problem_of(
    alloc: Global,
    opening: &Opening,
    calls: &[Logged],
    rules: Rules,
) -> Result<Problem, AllocError> {
    let mut builder = Builder::new(alloc, opening, rules)?;
    builder.add_calls(&opening.schema, calls, rules)?;
    Ok(builder.into_problem())
}
