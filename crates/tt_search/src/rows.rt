use std::alloc::Global;
use tt_schedule::Schedule;
use tt_text::NoMemory;

/// Steps of one thread that follow each other in a schedule.
#[derive(Clone, Copy)]
pub(crate) struct Row {
    pub(crate) thread: u32,
    /// At least 1.
    pub(crate) steps: u64,
}

/// The greatest number of a thread, and of steps.
const MOST: u64 = 16_777_216;

/// The rows of a schedule.
///
/// `NoMemory` if memory for them is refused.
pub(crate) fn rows_of(alloc: Global, schedule: &Schedule) -> Result<Vec<Row>, NoMemory> {
    let mut rows = Vec::new(alloc);
    for place in 0..schedule.len() {
        add_step(&mut rows, schedule.at(place))?;
    }
    Ok(rows)
}

/// Adds a step at the end of rows.
fn add_step(rows: &mut Vec<Row>, thread: u32) -> Result<(), NoMemory> {
    if let Some(row) = rows.last_mut() {
        if row.thread == thread {
            row.steps = row.steps.saturating_add(1);
            return Ok(());
        }
    }
    rows.push(Row { thread, steps: 1 })?;
    Ok(())
}

/// How often a schedule goes from one thread to another.
pub(crate) fn switch_count(schedule: &Schedule) -> u64 {
    let mut count = 0u64;
    for place in 1..schedule.len() {
        if schedule.at(place) != schedule.at(place - 1) {
            count = count.saturating_add(1);
        }
    }
    count
}

/// The schedule of rows, up to 16,777,216 steps of it.
///
/// `NoMemory` if memory for it is refused.
pub(crate) fn schedule_of(alloc: Global, rows: &[Row]) -> Result<Schedule, NoMemory> {
    let mut schedule = Schedule::new(alloc);
    for row in rows {
        push_row(&mut schedule, *row)?;
    }
    Ok(schedule)
}

/// Adds the steps of a row, as far as there is room for them.
fn push_row(schedule: &mut Schedule, row: Row) -> Result<(), NoMemory> {
    if row.thread == 0 || u64::from(row.thread) > MOST {
        return Ok(());
    }
    for _ in 0..row.steps {
        if schedule.len() >= MOST {
            break;
        }
        schedule.push(row.thread)?;
    }
    Ok(())
}

/// Rows without the one at a place.
///
/// `NoMemory` if memory for them is refused.
pub(crate) fn without_row(alloc: Global, rows: &[Row], place: usize) -> Result<Vec<Row>, NoMemory> {
    let mut others = Vec::new(alloc);
    for (at, row) in rows.iter().enumerate() {
        if at != place {
            others.push(*row)?;
        }
    }
    Ok(others)
}

/// Rows in which the next one of the same thread after a place stands right after that place. `None` exactly if there is
/// none, or it stands there.
///
/// `NoMemory` if memory for them is refused.
pub(crate) fn with_next_joined(
    alloc: Global,
    rows: &[Row],
    place: usize,
) -> Result<Option<Vec<Row>>, NoMemory> {
    let Some(next) = next_of_same(rows, place) else {
        return Ok(None);
    };
    let mut joined = Vec::new(alloc);
    for (at, row) in rows.iter().enumerate() {
        if at != next {
            joined.push(*row)?;
        }
        if at == place {
            if let Some(row) = rows.get(next) {
                joined.push(*row)?;
            }
        }
    }
    Ok(Some(joined))
}

/// The place of the next row of the same thread after a place.
fn next_of_same(rows: &[Row], place: usize) -> Option<usize> {
    let row = rows.get(place)?;
    for (at, other) in rows.iter().enumerate() {
        if at > place && other.thread == row.thread {
            return Some(at);
        }
    }
    None
}
