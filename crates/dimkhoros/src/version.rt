// The version of the library.
ghost use Rattle.std.specs.Prelude.{◌≡◌};

// 10000 times the major number, 100 times the minor one and the patch: 0.2.0.
const VERSION: u32 = 200;

// The version that the archive is built as.
#[unsafe(no_mangle)]
pub extern "C" fn dimkhoros_version() -> u32
    ensures { result ≡ 200 }
{
    VERSION
}
