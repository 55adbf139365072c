// Listing one manager's free sections.
ghost use Rattle.std.specs.Prelude.{◌≡◌};
ghost use Rattle.space.specs.Listing.{listed};
ghost use Rattle.space.specs.Outcomes.{SoundSpace};
ghost use Rattle.space.specs.Said.{list_said};

use crate::Space;
use crate::answers::{ListRefusal, Listed};

impl Space {
    // Address and size of each free section of one manager, in address order.
    pub fn list(self, table: &[u64], manager: u64, out: &mut [u64]) -> Listed
        ensures { list_said result out.new ≡ listed self manager table.now out.old }
    {
        if !self.is_sound(table) {
            return self.answers(Err(ListRefusal::NotSound));
        }
        self.list_sound(table, manager, out)
    }

    pub fn list_sound(self, table: &[u64], manager: u64, out: &mut [u64]) -> Listed
        requires { SoundSpace self table.now }
        ensures { list_said result out.new ≡ listed self manager table.now out.old }
    {
        if !requests::is_manager(manager) {
            return self.answers(Err(ListRefusal::UnknownManager));
        }
        let class = requests::class_of_manager(manager);
        match sections::list(class, self.entries(table), out) {
            Some(count) => self.answers(Ok(count as u64)),
            None => self.answers(Err(ListRefusal::SliceTooShort)),
        }
    }
}
