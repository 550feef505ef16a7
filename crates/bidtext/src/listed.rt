use bidfile::FileFault;

// The text of a file of words, a record a line, up to its damage, if it has any.
#[derive(Drop)]
pub struct Listed {
    pub text: String,
    pub fault: Option<FileFault>,
}
