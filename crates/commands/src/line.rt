// What a line says.
use crate::command::Command;

// A blank line or a comment, a command, or no command.
#[derive(Clone, Copy, PartialEq, Eq, Debug)]
pub enum Line {
    Silent,
    Command(Command),
    Syntax,
}
