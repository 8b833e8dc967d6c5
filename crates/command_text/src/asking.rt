//! Which commands only ask.
ghost use Rattle.std.specs.Prelude.{◌≡◌};
ghost use Rattle.command_text.specs.Asking.{asks};

use crate::command::Command;

/// Whether a command only asks, as those of `ls`, `get`, `props`, `fetch` and `getcriteria` do.
#[tactic(auto, unfolding(crate::specs::Asking::asks))]
pub fn only_asks(command: &Command) -> bool
    ensures { result ≡ asks command.now }
{
    match command {
        Command::ListFolder { .. }
        | Command::GetProperty { .. }
        | Command::ListProperties { .. }
        | Command::FetchData { .. }
        | Command::GetCriteria { .. } => true,
        Command::MakeFolder { .. }
        | Command::RenameFolder { .. }
        | Command::MoveFolder { .. }
        | Command::RemoveFolder { .. }
        | Command::NewMessage { .. }
        | Command::SetProperty { .. }
        | Command::UnsetProperty { .. }
        | Command::MoveMessage { .. }
        | Command::CopyMessage { .. }
        | Command::RemoveMessage { .. }
        | Command::AddRecipient { .. }
        | Command::RemoveRecipient { .. }
        | Command::AddAttachment { .. }
        | Command::AppendData { .. }
        | Command::SetEmbedded { .. }
        | Command::RemoveAttachment { .. }
        | Command::NameProperty { .. }
        | Command::MakeSearch { .. }
        | Command::SetCriteria { .. }
        | Command::Save
        | Command::Quit => false,
    }
}
