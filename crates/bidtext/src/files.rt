ghost use Rattle.std.specs.Prelude.{◌≡◌, List};
ghost use Rattle.bidfile.specs.Items.{Item};
ghost use Rattle.bidfile.specs.Layout.{Fits};
ghost use Rattle.bidtext.specs.Files.{LineAdded, TextRead, TextOf};
ghost use Rattle.bidtext.specs.Kept.{text_line};
ghost use Rattle.std.specs.List.{flat_map, AllByRecursion};

use crate::faults::TextFault;
use crate::layouts::push_record;
use crate::lines::read_line;
use bidfile::layout_holds;
use std::alloc::Global;

// Adds the words of a line, which has a number.
fn add_line(words: &mut Vec<u8>, line: &[u8], number: usize) -> Result<(), TextFault>
    ensures { LineAdded line.now number words.old.items words.new.items result }
{
    let read = read_line(line).map_err(|expected| TextFault::Line(number, expected))?;
    if let Some(record) = read {
        push_record(words, record)?;
    }
    Ok(())
}

// The words of a text, or its first line that cannot be read.
pub fn text_words(heap: Global, text: &[u8]) -> Result<Vec<u8>, TextFault>
    ensures value { TextRead text.now result }
    ensures back { (items : List Item) → AllByRecursion Fits items → text.now ≡ flat_map text_line items → TextOf items result }
{
    let mut words = Vec::new(heap);
    for (before, line) in text.split(|byte| *byte == b'\n').enumerate() {
        add_line(&mut words, line, before + 1)?;
    }
    layout_holds();
    Ok(words)
}
