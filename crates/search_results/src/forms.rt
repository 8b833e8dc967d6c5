//! Which messages a command touches, by its form.
ghost use Rattle.std.specs.Prelude.{◌≡◌};
ghost use Rattle.search_results.specs.Forms.{form_of};

use command_text::Command;
use pst_base::Nid;

/// Which messages a command touches.
#[derive(Clone, Copy, Debug, PartialEq, Eq)]
pub(crate) enum TouchForm {
    /// None.
    Nothing,
    /// The one that it makes.
    Made,
    /// The one with this id.
    Message(Nid),
    /// All within the folder that moves into that one.
    Within { folder: Nid, parent: Nid },
}

/// Which messages a command touches.
pub(crate) fn form_of(command: &Command) -> TouchForm
    ensures { result ≡ form_of command.now }
{
    match command {
        Command::NewMessage { .. } | Command::CopyMessage { .. } => TouchForm::Made,
        Command::SetProperty { message, .. } => TouchForm::Message(*message),
        Command::UnsetProperty { message, .. } => TouchForm::Message(*message),
        Command::MoveMessage { message, .. } => TouchForm::Message(*message),
        Command::RemoveMessage { message } => TouchForm::Message(*message),
        Command::AddRecipient { message, .. } => TouchForm::Message(*message),
        Command::RemoveRecipient { message, .. } => TouchForm::Message(*message),
        Command::AddAttachment { message, .. } => TouchForm::Message(*message),
        Command::AppendData { message, .. } => TouchForm::Message(*message),
        Command::SetEmbedded { message, .. } => TouchForm::Message(*message),
        Command::RemoveAttachment { message, .. } => TouchForm::Message(*message),
        Command::MoveFolder { folder, parent } => TouchForm::Within {
            folder: *folder,
            parent: *parent,
        },
        Command::MakeFolder { .. }
        | Command::RenameFolder { .. }
        | Command::RemoveFolder { .. }
        | Command::ListFolder { .. }
        | Command::GetProperty { .. }
        | Command::ListProperties { .. }
        | Command::FetchData { .. }
        | Command::NameProperty { .. }
        | Command::MakeSearch { .. }
        | Command::SetCriteria { .. }
        | Command::GetCriteria { .. }
        | Command::Save
        | Command::Quit => TouchForm::Nothing,
    }
}
