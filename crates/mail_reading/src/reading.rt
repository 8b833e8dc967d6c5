//! The commands that read messages, or nothing.
ghost use Rattle.std.specs.Prelude.{◌≡◌};
ghost use Rattle.mail_tree.specs.Changing.{nothing};
ghost use Rattle.search_folders.specs.mail_draft.Desks.{Comes};
ghost use Rattle.search_folders.specs.mail_draft.Sight.{Reads};
ghost use Rattle.mail_reading.specs.Asked.{read};

use command_text::{Command, CommandRefusal, LastLine, Reply};
use mail_parts::mail_messages::on_desk::{get_value, list_details};
use mail_parts::on_desk::fetch;
use search_folders::mail_draft::{Coming, Desk, Stop};

/// What a command comes to that reads messages, or nothing. Refused as `Line` otherwise.
#[tactic(auto, unfolding(crate::specs::Asked::read))]
pub(crate) fn read<D: Desk>(desk: &mut D, command: &Command) -> Result<Coming, Stop>
    requires fresh { (D.view desk.old).changed ≡ nothing }
    ensures reads { Reads (D.view desk.old) (D.view desk.new) result }
    ensures answer { Comes (D.view desk.old) (D.view desk.new) (λ T c. read T command.now) result }
{
    match command {
        Command::GetProperty { message, tag } => get_value(desk, *message, *tag),
        Command::ListProperties { message } => list_details(desk, *message),
        Command::FetchData {
            message,
            attachment,
        } => fetch(desk, *message, *attachment),
        Command::Quit => Ok(Coming::replied(Reply::without_data(desk.alloc(), LastLine::Done))),
        Command::ListFolder { .. }
        | Command::GetCriteria { .. }
        | Command::MakeFolder { .. }
        | Command::RenameFolder { .. }
        | Command::MoveFolder { .. }
        | Command::RemoveFolder { .. }
        | Command::NewMessage { .. }
        | Command::SetProperty { .. }
        | Command::UnsetProperty { .. }
        | Command::MoveMessage { .. }
        | Command::CopyMessage { .. }
        | Command::RemoveMessage { .. }
        | Command::AddRecipient { .. }
        | Command::RemoveRecipient { .. }
        | Command::AddAttachment { .. }
        | Command::AppendData { .. }
        | Command::SetEmbedded { .. }
        | Command::RemoveAttachment { .. }
        | Command::NameProperty { .. }
        | Command::MakeSearch { .. }
        | Command::SetCriteria { .. }
        | Command::Save => Err(Stop::Refused(CommandRefusal::Line)),
    }
}
