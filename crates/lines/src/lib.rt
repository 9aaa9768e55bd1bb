// A line: a word and numbers in a row, put on a page. What has no room is left out. Nothing here writes a file, and no function asks
// anything of its caller.
#![tactic(auto)]

ghost use Rattle.std.specs.Prelude.{◌≡◌};
ghost use Rattle.text.specs.Writing.{put_all};
ghost use Rattle.lines.specs.Lines.{space_if, numbers_text, line_text};

use text::Page;

// A flag, not a row without its first: all that a turn has to know of those before it is whether a space is due.
fn put_space(page: &mut Page, due: bool)
    ensures { page.new ≡ put_all page.old (space_if due) }
{
    if due {
        page.put_byte(b' ');
    }
}

// Numbers with a space between any two of them, and before the first where one is due.
fn put_numbers(page: &mut Page, first: bool, numbers: &[u64])
    ensures { page.new ≡ put_all page.old (numbers_text first numbers.now) }
{
    let mut due = first;
    for number in numbers {
        put_space(page, due);
        page.put_decimal(*number);
        due = true;
    }
}

// A word, which may be empty, then numbers, with a space between any two of them, and a newline.
pub fn put_line(page: &mut Page, word: &[u8], numbers: &[u64])
    ensures { page.new ≡ put_all page.old (line_text word.now numbers.now) }
{
    page.put_text(word);
    put_numbers(page, !word.is_empty(), numbers);
    page.put_byte(b'\n');
}
