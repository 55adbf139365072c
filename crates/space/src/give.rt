// Giving back, lengthening, shortening. Each names a live piece by its exact address and size.
ghost use Rattle.std.specs.Prelude.{◌≡◌, ◌+◌, ◌≤◌, Ok};
ghost use Rattle.space.specs.Giving.{released_at, released, new_size, resized_to, resized_at, resized, extended, shortened};
ghost use Rattle.space.specs.Halves.{FoundIn, ReleaseLeads, ResizeLeads};
ghost use Rattle.space.specs.Outcomes.{SoundSpace};
ghost use Rattle.space.specs.Said.{release_said, resize_said, extend_said, shorten_said};

use crate::Space;
use crate::answers::{NotResized, ReleaseRefusal, Released, ResizeRefusal, Resized};
use change::plan::Plan;
use pieces::Piece;

// Which way a piece is resized.
#[derive(Clone, Copy)]
pub enum Way {
    Longer,
    Shorter,
}

impl Space {
    // ---- release

    pub fn release(self, table: &mut [u64], address: u64, size: u64) -> Released
        ensures { release_said result table.new ≡ released self address size table.old }
    {
        if !self.is_sound(table) {
            return self.answers(Err(ReleaseRefusal::NotSound));
        }
        match self.decide_release(table, address, size) {
            Ok(plan) => self.carry_out(table, plan).answers(Ok(())),
            Err(refusal) => self.answers(Err(refusal)),
        }
    }

    pub fn decide_release(
        self,
        table: &[u64],
        address: u64,
        size: u64,
    ) -> Result<Plan, ReleaseRefusal>
        requires { SoundSpace self table.now }
        ensures { ReleaseLeads self table.now (released self address size table.now) result }
    {
        let named = find::find(address, size, self.entries(table));
        let Ok((i, piece)) = named else {
            return Err(ReleaseRefusal::NotNamed(named.unwrap_err()));
        };
        self.release_found(table, i, piece)
    }

    fn release_found(self, table: &[u64], i: usize, piece: Piece) -> Result<Plan, ReleaseRefusal>
        requires { FoundIn self table.now i piece }
        ensures { ReleaseLeads self table.now (released_at self piece.address piece.size table.now i piece) result }
    {
        let n = self.count as usize;
        settle::without(self.page, self.end, n, i, i + 1, table).ok_or(ReleaseRefusal::TableFull)
    }

    // ---- extend and shorten

    pub fn extend(self, table: &mut [u64], address: u64, size: u64, by: u64) -> Resized
        ensures { extend_said result table.new ≡ extended self address size by table.old }
    {
        self.resize(table, address, size, Way::Longer, by)
    }

    pub fn shorten(self, table: &mut [u64], address: u64, size: u64, by: u64) -> Resized
        ensures { shorten_said result table.new ≡ shortened self address size by table.old }
    {
        self.resize(table, address, size, Way::Shorter, by)
    }

    fn resize(self, table: &mut [u64], address: u64, size: u64, way: Way, by: u64) -> Resized
        ensures { resize_said result table.new ≡ resized self address size way by table.old }
    {
        if !self.is_sound(table) {
            return self.answers(Err(ResizeRefusal::NotSound));
        }
        match self.decide_resize(table, address, size, way, by) {
            Ok(plan) => self.carry_out(table, plan).answers(Ok(())),
            Err(refusal) => self.answers(Err(refusal)),
        }
    }

    pub fn decide_resize(
        self,
        table: &[u64],
        address: u64,
        size: u64,
        way: Way,
        by: u64,
    ) -> Result<Plan, ResizeRefusal>
        requires { SoundSpace self table.now }
        ensures { ResizeLeads self table.now (resized self address size way by table.now) result }
    {
        if requests::is_zero(size, by) {
            return Err(ResizeRefusal::NoBytes);
        }
        let named = find::find(address, size, self.entries(table));
        let Ok((i, piece)) = named else {
            return Err(ResizeRefusal::NotNamed(named.unwrap_err()));
        };
        self.resize_found(table, i, piece, way, by)
    }

    // The found piece is to become so many bytes longer or shorter.
    fn resize_found(
        self,
        table: &[u64],
        i: usize,
        piece: Piece,
        way: Way,
        by: u64,
    ) -> Result<Plan, ResizeRefusal>
        requires { FoundIn self table.now i piece }
        ensures { ResizeLeads self table.now (resized_at self piece.address piece.size way by table.now i piece) result }
    {
        let size = self.new_size(table, i, piece, way, by)?;
        self.resize_to(table, i, piece, size)
    }

    // The piece's new size, or why it keeps its own.
    fn new_size(
        self,
        table: &[u64],
        i: usize,
        piece: Piece,
        way: Way,
        by: u64,
    ) -> Result<u64, NotResized>
        requires { FoundIn self table.now i piece }
        ensures { result ≡ new_size self piece.address piece.size way by table.now i piece }
    {
        let class = piece.status.class();
        match way {
            Way::Longer => {
                let e = piece.address + piece.size;
                let next = i + 1;
                let n = self.count as usize;
                let behind = pieces::words_of(table, next, n);
                if !room::has_room(self.page, class, e, piece.size, by, behind) {
                    return Err(NotResized::NoRoomBehind);
                }
                if room::grows_beyond(self.page, self.limit, e, by, next, n) {
                    return Err(NotResized::BeyondLimit);
                }
                Ok(piece.size + by)
            }
            Way::Shorter => {
                if !room::remains(self.page, class, piece.size, by) {
                    return Err(NotResized::TooLittleLeft);
                }
                Ok(piece.size - by)
            }
        }
    }

    // The found piece is to get so many bytes, or the table is full.
    fn resize_to(
        self,
        table: &[u64],
        i: usize,
        piece: Piece,
        size: u64,
    ) -> Result<Plan, ResizeRefusal>
        requires { FoundIn self table.now i piece × (piece.address + size ≤ self.limit) }
        ensures { ResizeLeads self table.now (resized_to self piece.address piece.size table.now (Ok size)) result }
    {
        let n = self.count as usize;
        let resized = Piece { size, ..piece };
        settle::with(self.page, self.end, n, i, i + 1, resized, table).ok_or(
            ResizeRefusal::TableFull,
        )
    }
}
