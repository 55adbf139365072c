// The calls of `area` for a program in C (include/filespace.h): each is its namesake there, and promises the same.
#![tactic(auto)]

ghost use Rattle.std.specs.Prelude.{◌≡◌};
ghost use Rattle.area_calls.specs.Calls.{area_said, both_said, opened_in, allocated_in, released_in, extended_in, shortened_in};

#[unsafe(no_mangle)]
pub extern "C" fn filespace_open(page: u64, limit: u64, area: &mut [u8]) -> u64
    ensures { area_said result area.new ≡ opened_in page limit area.old }
{
    area::filespace_open(page, limit, area)
}

// The address goes to the first 8 bytes of the result.
#[unsafe(no_mangle)]
pub extern "C" fn filespace_allocate(area: &mut [u8], code: u64, size: u64, res: &mut [u8]) -> u64
    ensures { both_said result area.new res.new ≡ allocated_in code size area.old res.old }
{
    area::filespace_allocate(area, code, size, res)
}

#[unsafe(no_mangle)]
pub extern "C" fn filespace_release(area: &mut [u8], address: u64, size: u64) -> u64
    ensures { area_said result area.new ≡ released_in address size area.old }
{
    area::filespace_release(area, address, size)
}

#[unsafe(no_mangle)]
pub extern "C" fn filespace_extend(area: &mut [u8], address: u64, size: u64, by: u64) -> u64
    ensures { area_said result area.new ≡ extended_in address size by area.old }
{
    area::filespace_extend(area, address, size, by)
}

#[unsafe(no_mangle)]
pub extern "C" fn filespace_shorten(area: &mut [u8], address: u64, size: u64, by: u64) -> u64
    ensures { area_said result area.new ≡ shortened_in address size by area.old }
{
    area::filespace_shorten(area, address, size, by)
}
