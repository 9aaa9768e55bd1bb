// The first of several templates that a line fits. Each stands after its key, a byte that says what it is the template of, and ends with
// a newline. No function asks anything of its caller.
#![tactic(auto)]

ghost use Rattle.std.specs.Prelude.{◌≡◌, ◌==◌, ◌≤◌, length, position};
ghost use Rattle.text.specs.Writing.{newline_byte};
ghost use Rattle.templates.specs.Finding.{after_line, first_fitting};

pub use matching::NUMBERS;
use matching::fits;

// The key of the first template that a line fits, and the numbers that were read of it, with zeros after them.
#[derive(Clone, Copy)]
pub struct Found {
    pub key: u8,
    pub numbers: [u64; NUMBERS],
}

// The place of the first newline.
fn newline(templates: &[u8]) -> Option<usize>
    ensures { result ≡ position (λ byte. byte == newline_byte) templates.now }
{
    templates.iter().position(|byte| *byte == b'\n')
}

// What is left after the next newline.
fn next_template(templates: &[u8]) -> &[u8]
    ensures value { result.now ≡ after_line templates.now }
    ensures no_longer { length result.now ≤ length templates.now }
{
    match newline(templates) {
        Some(end) => &templates[end + 1..],
        None => &[],
    }
}

// The first template that the line fits.
pub fn first_fitting(line: &[u8], templates: &[u8]) -> Option<Found>
    ensures { result ≡ first_fitting line.now templates.now }
{
    let mut rest = templates;
    while let Some((key, template)) = rest.split_first() {
        if let Ok(numbers) = fits(line, template) {
            return Some(Found { key: *key, numbers });
        }
        rest = next_template(template);
    }
    None
}
