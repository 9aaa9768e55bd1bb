// No code: lemmas that the pages under docs/ name, and that no proof needs today: of the areas, of numbers, digests, templates and lines, of
// refusals in a row, of the calls of events, of the check of a stamp and of what is written to a log, and of going through events. Nothing
// stands on them; each stands here under its name, so that what the pages say of it stays proved.
#![tactic(auto)]
