// Where sessions are held until others have come somewhere.
use mesa_shell::{Gate, Point};
use std::sync::Wait;
use std::sync::atomic::{AtomicU64, Ordering};
use std::thread::yield_now;

/// How often a session looks for another before it gives up and goes on.
const LOOKS: u32 = 20_000_000;

/// Where a session comes by.
#[derive(Clone, Copy)]
pub enum Place {
    Started,
    /// The first append to one of its drafts is called.
    Appending,
    /// A block of a file is read.
    Reading,
    Merged,
    Printed,
}

/// A session is held where it first comes by a place, until another one has come by another.
pub struct Hold {
    pub session: u16,
    pub at: Place,
    pub until: (u16, Place),
}

/// Who has come by where, and who is held there.
#[derive(Drop)]
pub struct Meeting {
    holds: &'static [Hold],
    come_by: AtomicU64,
}

// The bit of a session that has come by a place: eight for each place.
fn bit(session: u16, place: Place) -> u64 {
    let number = (place as u32).wrapping_mul(8);
    1u64.wrapping_shl(number.wrapping_add(session as u32))
}

impl Meeting {
    pub fn new(holds: &'static [Hold]) -> Meeting {
        Meeting {
            holds,
            come_by: AtomicU64::new(0),
        }
    }

    // Waits until this bit is there.
    fn wait_for(&self, awaited: u64) {
        for _look in 0..LOOKS {
            if self.come_by.load(Ordering::SeqCst) & awaited != 0 {
                return;
            }
            yield_now();
        }
    }

    // Holds whoever this bit is of.
    fn hold(&self, comes: u64) {
        for hold in self.holds {
            if bit(hold.session, hold.at) == comes {
                let (other, until) = hold.until;
                self.wait_for(bit(other, until));
            }
        }
    }

    /// Notes that a session comes by a place, and holds it there the first time.
    pub fn come(&self, session: u16, place: Place) {
        let comes = bit(session, place);
        let before = self.come_by.fetch_or(comes, Ordering::SeqCst);
        if before & comes == 0 {
            self.hold(comes);
        }
    }
}

impl Gate for Meeting {
    fn reach<R: Wait>(&self, _rt: &R, point: Point, session: u16) {
        let place = match point {
            Point::Started => Place::Started,
            Point::Merged => Place::Merged,
            Point::Printed => Place::Printed,
        };
        self.come(session, place);
    }
}
