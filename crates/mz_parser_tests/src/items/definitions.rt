//! Definitions that break one rule: a redefinition with neither type nor meaning has no property. No parser gives them, so
//! they are put together from what parsers of their parts give.
use mz_forms::refusal::Refusal;
use mz_parser_samples::answer::{Answer, taken};
use mz_parser_samples::marked::{BEFORE, marked_behind_begin, reader_behind_begin};
use mz_parser_samples::spelled::spelled;
use mz_pblock::conditions::owed;
use mz_pheading::headings::heading;
use mz_pjustification::keyword::Keyword;
use mz_pjustification::words::expect_key;
use mz_ppattern::words::expect_word;
use mz_pterm::reader::Reader;
use mz_tree::lists::Trees;
use mz_tree_item::definition::{DefinitionPartTree, DefinitionTree};
use std::alloc::Global;
use std::process::Abort;

/// The definition with one heading, and the conditions and properties behind it, whichever these are.
fn definition(reader: &mut Reader<'_>) -> Result<DefinitionTree, Refusal> {
    let definition = expect_word(reader, b"definition")?;
    let heading = heading(reader, 0)?;
    let conditions = owed(reader, false, 0)?;
    let end = expect_key(reader, Keyword::End)?;
    let semicolon = expect_key(reader, Keyword::Semicolon)?;
    let mut items = Vec::new(reader.alloc);
    items.push(DefinitionPartTree::Heading {
        heading,
        conditions,
    })?;
    Ok(DefinitionTree {
        definition,
        parts: Trees { items },
        end,
        semicolon,
    })
}

/// How many tokens the copy of the definition is spelled by, where they are those of the text.
fn answered(rt: &impl Abort, alloc: Global, text: &[u8]) -> Answer {
    let all = marked_behind_begin(alloc, text).expect(rt, "tokens");
    let mut reader = reader_behind_begin(alloc, &all);
    let tree = definition(&mut reader).ok().expect(rt, "a definition");
    let spelled = spelled(alloc, &tree).expect(rt, "memory");
    taken(
        spelled.as_slice(),
        all.items.as_slice(),
        BEFORE,
        all.items.len(),
    )
}

const ROWS: [(&[u8], Answer); 2] = [
    (b"definition redefine func +; end;", Answer::Until(7)),
    (
        b"definition redefine func +; coherence; end;",
        Answer::Until(9),
    ),
];

#[test]
fn definitions(rt: HostRuntime) {
    for (number, (text, answer)) in ROWS.iter().enumerate() {
        let given = answered(&rt, rt.alloc(), text);
        assert!(rt; given == *answer, "row {number} gives {given:?}");
    }
}
