use std::alloc::{AllocError, Global};

/// The places of members in their catalogue: from the first number on, and before the second one.
pub(crate) type PlaceRange = (usize, usize);

/// An event without its worker, its jobs and its list.
#[derive(Clone, Copy, Debug)]
pub(crate) enum Action {
    Take(u64),
    Look,
    Split(u64),
    Finish(u64),
    Back(u64),
    Emit,
    Part(u64),
    Save,
    Resume,
}

/// How far an entry is.
#[derive(Clone, Copy, Debug, PartialEq, Eq)]
pub(crate) enum Stage {
    Open,
    Out,
    Done,
}

/// An entry, and where its members stand.
#[derive(Clone, Copy)]
pub(crate) struct PlainEntry {
    pub(crate) number: u64,
    pub(crate) stage: Stage,
    span: PlaceRange,
}

/// A front as a plain list: it knows no jobs and no symbols, and only where members stand.
#[derive(Drop)]
pub(crate) struct PlainFront {
    alloc: Global,
    opening: Vec<PlaceRange>,
    pub(crate) rows: Vec<PlainEntry>,
    pub(crate) next_number: u64,
    pub(crate) lines: u128,
    next_place: usize,
    saved_lines: u128,
    saved_place: usize,
}

/// Open rows, numbered from `first` on.
fn open_rows(
    alloc: Global,
    first: u64,
    spans: &[PlaceRange],
) -> Result<Vec<PlainEntry>, AllocError> {
    let mut rows = Vec::new(alloc);
    let mut number = first;
    for span in spans {
        rows.push(PlainEntry {
            number,
            stage: Stage::Open,
            span: *span,
        })?;
        number = number.saturating_add(1);
    }
    Ok(rows)
}

impl PlainFront {
    pub(crate) fn open(
        alloc: Global,
        opening: Vec<PlaceRange>,
        lines: u128,
    ) -> Result<PlainFront, AllocError> {
        let rows = open_rows(alloc, 1, opening.as_slice())?;
        Ok(PlainFront {
            alloc,
            next_number: (rows.len() as u64).saturating_add(1),
            opening,
            rows,
            lines,
            next_place: 0,
            saved_lines: lines,
            saved_place: 0,
        })
    }

    fn has(&self, number: u64, stage: Stage) -> bool {
        self.rows
            .iter()
            .any(|row| row.number == number && row.stage == stage)
    }

    /// Where those members stand that the first entry has and that were not emitted yet, where it
    /// is done.
    fn left(&self) -> Option<PlaceRange> {
        let row = self.rows.first()?;
        if row.stage != Stage::Done {
            return None;
        }
        let (first, end) = row.span;
        Some((first.max(self.next_place), end.max(self.next_place)))
    }

    pub(crate) fn allows(&self, action: Action) -> bool {
        match action {
            Action::Take(number) => self.has(number, Stage::Open),
            Action::Look => self.rows.iter().all(|row| row.stage != Stage::Open),
            Action::Split(number) | Action::Finish(number) | Action::Back(number) => number == 0
                || self.has(number, Stage::Out),
            Action::Emit => self.left().is_some(),
            Action::Part(count) => match self.left() {
                Some((first, end)) => count < end.saturating_sub(first) as u64,
                None => false,
            },
            Action::Save | Action::Resume => true,
        }
    }

    fn set(&mut self, number: u64, stage: Stage) {
        for row in &mut self.rows {
            if row.number == number {
                row.stage = stage;
            }
        }
    }

    /// Puts open rows in the place of the one of a number.
    fn split(&mut self, number: u64, parts: &[PlaceRange]) -> Result<(), AllocError> {
        let mut rows = Vec::new(self.alloc);
        for row in &self.rows {
            if row.number == number {
                let new = open_rows(self.alloc, self.next_number, parts)?;
                rows.extend_from_slice(new.as_slice())?;
            } else {
                rows.push(*row)?;
            }
        }
        if number > 0 {
            self.next_number = self.next_number.saturating_add(parts.len() as u64);
        }
        self.rows = rows;
        Ok(())
    }

    /// Goes on at a place, and answers where the members stand that were passed over.
    fn go_to(&mut self, first: usize, place: usize) -> PlaceRange {
        self.next_place = place;
        self.lines = self
            .lines
            .saturating_add(place.saturating_sub(first) as u128);
        (first, place)
    }

    fn resume(&mut self) -> Result<(), AllocError> {
        let mut spans = Vec::new(self.alloc);
        for span in &self.opening {
            if span.1 > self.saved_place {
                spans.push(*span)?;
            }
        }
        self.rows = open_rows(self.alloc, 1, spans.as_slice())?;
        self.next_number = (spans.len() as u64).saturating_add(1);
        self.lines = self.saved_lines;
        self.next_place = self.saved_place;
        Ok(())
    }

    /// Does what is allowed, with the parts of a split, and answers where the members stand that
    /// are emitted.
    pub(crate) fn act(
        &mut self,
        action: Action,
        parts: &[PlaceRange],
    ) -> Result<PlaceRange, AllocError> {
        let left = self.left();
        match action {
            Action::Take(number) => self.set(number, Stage::Out),
            Action::Look => {}
            Action::Split(number) => self.split(number, parts)?,
            Action::Finish(number) => self.set(number, Stage::Done),
            Action::Back(number) => self.set(number, Stage::Open),
            Action::Emit => if let Some((first, end)) = left {
                if !self.rows.is_empty() {
                    let _row = self.rows.remove(0);
                }
                return Ok(self.go_to(first, end));
            },
            Action::Part(count) => if let Some((first, _)) = left {
                return Ok(self.go_to(first, first.saturating_add(count as usize)));
            },
            Action::Save => {
                self.saved_lines = self.lines;
                self.saved_place = self.next_place;
            }
            Action::Resume => self.resume()?,
        }
        Ok((0, 0))
    }
}
