// Finding a list, for C.
ghost use Rattle.std.specs.Prelude.{◌≡◌};
ghost use Rattle.rolbhunga.specs.Find.{none, told, found_for};

use rolbhunga::find::FindNumbers;

#[unsafe(no_mangle)]
pub extern "C" fn rolbhunga_find(file: &[u8], which: u32) -> FindNumbers
    ensures { result ≡ found_for file.now which }
{
    rolbhunga::find::rolbhunga_find(file, which)
}
