// Bid files as plain text: a record a line, and back.
#![tactic(auto)]

mod backwards;
mod choices;
mod expected;
mod faults;
mod fields;
mod files;
mod layouts;
mod letters;
mod lines;
mod listed;
mod names;
mod texts;
mod values;

pub use backwards::words_text;
pub use expected::Expected;
pub use faults::TextFault;
pub use files::text_words;
pub use lines::read_line;
pub use listed::Listed;
pub use texts::record_text;
