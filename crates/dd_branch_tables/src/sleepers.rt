ghost use Rattle.std.specs.Prelude.{◌≡◌};

use arrayvec::ArrayVec;

/// The place of no image.
pub(crate) const NOWHERE: u8 = 127;

/// A start chamber, and the place for whose image it waited.
#[derive(Clone, Copy, Default, Drop)]
struct Wait {
    start: u8,
    place: u8,
}

/// Start chambers that sleep, each until the image at a place is known, and where each waited
/// before it was moved, in order.
#[derive(Drop)]
pub(crate) struct Sleepers {
    waits: [u8; 64],
    waiting: [u64; 128],
    trail: ArrayVec<Wait, 512>,
}

impl Sleepers {
    /// All chambers of a size but the first. Each waits for its image under s0.
    pub(crate) fn new(size: u8) -> Sleepers {
        let mut sleepers = Sleepers {
            waits: [NOWHERE; 64],
            waiting: [0; 128],
            trail: ArrayVec::new(),
        };
        for k in 1..size.min(36) {
            sleepers.seat(k + 1, 3 * k);
        }
        sleepers
    }

    /// The starts that wait for the image at a place, as bits.
    pub(crate) fn at(&self, place: u8) -> u64 {
        self.waiting[(place % 128) as usize]
    }

    /// Lets a start wait for the image at a place.
    fn seat(&mut self, start: u8, place: u8)
        ensures { self.new.trail ≡ self.old.trail }
    {
        let bit = 1u64 << (start % 64);
        let before = self.waits[(start % 64) as usize];
        self.waiting[(before % 128) as usize] &= !bit;
        self.waiting[(place % 128) as usize] |= bit;
        self.waits[(start % 64) as usize] = place;
    }

    /// Lets a start wait for the image at another place. Where there is no room to keep the one
    /// before, it sleeps on.
    pub(crate) fn send(&mut self, start: u8, place: u8) {
        if self.trail.is_full() {
            return;
        }
        let before = self.waits[(start % 64) as usize];
        self.trail.push(Wait {
            start,
            place: before,
        });
        self.seat(start, place);
    }

    /// How many times a start was moved.
    pub(crate) fn mark(&self) -> usize {
        self.trail.len()
    }

    /// Moves back the starts that were moved after a mark.
    pub(crate) fn undo(&mut self, mark: usize) {
        while self.trail.len() > mark {
            if let Some(wait) = self.trail.pop() {
                self.seat(wait.start, wait.place);
            }
        }
    }
}
