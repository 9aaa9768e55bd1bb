// A line of a script as a typed command: the first template that it fits says which by its key, the byte before it. Nothing here reads
// or writes a file: whoever runs scripts reads lines and holds what the commands speak of.
#![tactic(auto)]

ghost use Rattle.std.specs.Prelude.{◌≡◌};
ghost use Rattle.script.specs.Reading.{read_as};

use commands::{Command, of_key};
use templates::first_fitting;

// The most bytes that a line may have, without its newline.
pub const LONGEST: usize = 1000;

#[tactic(auto, unfolding(crate::specs::Reading::read_as, choice::specs::Pick::pick))]
// The command of a line. An empty line and a comment say nothing, however long.
pub fn read(line: &[u8]) -> Command
    ensures { result ≡ read_as line.now result }
{
    if line.is_empty() {
        return Command::Nothing;
    }
    if line[0] == b'#' {
        return Command::Nothing;
    }
    if LONGEST < line.len() {
        return Command::Bad;
    }
    match first_fitting(line, TEMPLATES) {
        Some(found) => of_key(found.key, found.numbers),
        None => Command::Bad,
    }
}

// The commands, each after its key.
const TEMPLATES: &[u8] = b".show
llend B N
pput B N N
ffill L:S
=record N N N N N F U U U D D D F K N N
ttails N
oopen N N N L:S
bbegin L:S L:S C:S
Bbegin-structural L:S L:S C:S
eedit L:S L:S
Sreport-structure N O N L:S L:S
1ask-structure
2ask-update
3ask-rollback
Ureport-update N O N N
Vreport-rollback N O N N
ccommit
rrecover N
Rrecover-retained
nrefresh N
sstamp N
?check N N N N
Llink N F
Iinitialize N
Ccancel N
+add-tail N N N
-remove-tail N N
Ffind-tail N N N N N N N
Mmove-tail N N N N N N N
Gfind-struct N N N N N N N
Nmove-struct N N N N N N N
";
