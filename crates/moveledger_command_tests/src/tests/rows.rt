// Rows of texts: what each shows, what it gives, and what is wanted of that.

use std::alloc::Global;
use std::test::Fail;

/// What a row shows, what it gives, and what is wanted of that.
pub type Row = (&'static str, &'static str, &'static str);

/// The rows of a text, in which each begins with #, and has a line for each of these.
pub fn rows_of(alloc: Global, text: &'static str) -> Result<Vec<Row>, Fail> {
    let mut rows = Vec::new(alloc);
    for row in text.split('#').skip(1) {
        let mut lines = row.lines();
        let (Some(shows), Some(given), Some(wanted)) = (lines.next(), lines.next(), lines.next())
        else {
            return Err(Fail::from("a row has fewer lines"));
        };
        rows.push((shows.trim_start(), given, wanted))?;
    }
    Ok(rows)
}
