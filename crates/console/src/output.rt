// Writing by way of a page, on which what is put waits.
ghost use Rattle.std.specs.Prelude.{◌≡◌};

use std::io;
use std::io::Write;
use text::Page;

// Writes out what waits where this is due, or where there is less room left than is asked for; a page that says it has more bytes than it
// has is out of room. The bytes of the page stay as they are, whatever is written of them.
pub fn flush_before(
    output: &mut impl Write,
    due: bool,
    page: &mut Page,
    room: usize,
) -> io::Result<()>
    ensures { page.new.bytes ≡ page.old.bytes }
{
    let overfull = page.filled().len() < page.written();
    if due || page.room() < room || overfull {
        output.write_all(page.filled())?;
        page.clear();
    }
    Ok(())
}
