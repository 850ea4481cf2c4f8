//! Where a place stands in a text.
use mz_base::place::Place;

/// The place behind the byte.
fn behind(place: Place, byte: u8) -> Place {
    if byte == b'\n' {
        Place {
            line: place.line.saturating_add(1),
            column: 1,
        }
    } else {
        Place {
            line: place.line,
            column: place.column.saturating_add(1),
        }
    }
}

/// Whether the place is that of a byte of the text, or just after its last one.
pub fn stands_in(text: &[u8], place: Place) -> bool {
    let mut here = Place { line: 1, column: 1 };
    for byte in text {
        if here == place {
            return true;
        }
        here = behind(here, *byte);
    }
    here == place
}
