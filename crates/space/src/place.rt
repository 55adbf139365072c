// Choosing a place.
ghost use Rattle.std.specs.Prelude.{◌≡◌};
ghost use Rattle.room.specs.Room.{GrowFits};
ghost use Rattle.space.specs.Halves.{PlaceFits, AllocateLeads};
ghost use Rattle.space.specs.Outcomes.{SoundSpace};
ghost use Rattle.space.specs.Placing.{beyondb, placed, allocated};
ghost use Rattle.space.specs.Said.{allocate_said};

use crate::Space;
use crate::answers::{AllocateRefusal, Allocated};
use change::plan::Plan;
use choose::place;
use choose::place::Place;
use pieces::{Class, Piece, Status};

pub const METADATA: u64 = requests::METADATA;

pub const RAW: u64 = requests::RAW;

impl Space {
    // Whether the place is the end, and the file would pass its limit.
    fn is_beyond(self, place: Place, size: u64) -> bool
        requires { GrowFits self.page self.limit self.end }
        ensures { result ≡ beyondb self size place }
    {
        place.is_end() && room::passes_limit(self.page, self.limit, self.end, size)
    }

    // A piece is to go to the place that was chosen.
    fn place(
        self,
        table: &[u64],
        class: Class,
        size: u64,
        place: Place,
    ) -> Result<(u64, Plan), AllocateRefusal>
        requires { PlaceFits self class size table.now place }
        ensures { AllocateLeads self table.now (placed self class size table.now place) result }
    {
        if self.is_beyond(place, size) {
            return Err(AllocateRefusal::BeyondLimit);
        }
        let n = self.count as usize;
        let i = place.entry(n);
        let b = place.address(self.end);
        let new = Piece {
            address: b,
            size,
            status: Status::Live(class),
        };
        let plan = settle::with(self.page, self.end, n, i, i, new, table).ok_or(
            AllocateRefusal::TableFull,
        )?;
        Ok((b, plan))
    }

    // What is decided on a request: where the piece goes, and the change that puts it there; or the refusal.
    pub fn decide_allocate(
        self,
        table: &[u64],
        code: u64,
        size: u64,
    ) -> Result<(u64, Plan), AllocateRefusal>
        requires { SoundSpace self table.now }
        ensures { AllocateLeads self table.now (allocated self code size table.now) result }
    {
        if !requests::is_type(code) {
            return Err(AllocateRefusal::UnknownType);
        }
        if size == 0 {
            return Err(AllocateRefusal::NoBytes);
        }
        let class = requests::class_for(self.page, code, size);
        let place = place::place_for(self.page, class, size, self.entries(table));
        self.place(table, class, size, place)
    }

    pub fn allocate(self, table: &mut [u64], code: u64, size: u64) -> Allocated
        ensures { allocate_said result table.new ≡ allocated self code size table.old }
    {
        if !self.is_sound(table) {
            return self.answers(Err(AllocateRefusal::NotSound));
        }
        match self.decide_allocate(table, code, size) {
            Ok((b, plan)) => self.carry_out(table, plan).answers(Ok(b)),
            Err(refusal) => self.answers(Err(refusal)),
        }
    }
}
