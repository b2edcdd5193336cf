//! Which version of the library a program was linked with.
ghost use Rattle.std.specs.Prelude.{◌≡◌};
ghost use Rattle.comm_c.specs.Version.{version};

/// The version of this library, as `rolgunai_version` gives it. `rolgunai.h` has the same, and `tools/version` compares
/// them.
pub const VERSION: u32 = 1000;

/// The version of the library that is linked, 1,000,000 times its first number, 1,000 times its second and its third
/// together: 2,003,004 is 2.3.4. It takes no handle, and may be called at any time, from any thread.
#[unsafe(no_mangle)]
pub extern "C" fn rolgunai_version() -> u32
    ensures version { result ≡ version }
{
    VERSION
}
