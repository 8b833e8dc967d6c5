//! Each command, by its name, over a desk.
ghost use Rattle.std.specs.Prelude.{◌≡◌};
ghost use Rattle.mail_tree.specs.Changing.{nothing};
ghost use Rattle.mail_tree.specs.Step.{outcome};
ghost use Rattle.mail_draft.specs.Desks.{Comes};
ghost use Rattle.mail_draft.specs.Sight.{Drafts};

use command_text::{Command, CommandRefusal, LastLine, Reply};
use mail_draft::{Coming, CountingDesk, Stop};
use mail_folders::FolderMakingDesk;
use mail_folders::on_desk::{list_folder, make_folder, move_folder, remove_folder, rename_folder};
use mail_parts::mail_messages::on_desk::{
    copy_message, get_value, list_details, move_message, new_message, remove_message, set_value,
    unset_value,
};
use mail_parts::mail_names::on_desk::name_property;
use mail_parts::on_desk::{
    add_recipient, append, attach, detach, fetch, remove_recipient, set_embedded,
};

/// What a command comes to, or why it is refused. The nodes stay. `Fault` comes where the disk failed, `Memory` where there was no memory, and `Changed` where something isn't as it was found before.
#[tactic(auto, unfolding(mail_tree::specs::Step::outcome))]
pub fn outcome<D: FolderMakingDesk + CountingDesk>(
    desk: &mut D,
    command: &Command,
) -> Result<Coming, Stop>
    requires fresh { (D.view desk.old).changed ≡ nothing }
    ensures drafts { Drafts (D.view desk.old) (D.view desk.new) result }
    ensures answer { Comes (D.view desk.old) (D.view desk.new) (λ T c. outcome T command.now) result }
{
    match command {
        Command::MakeFolder { parent, name } => make_folder(desk, *parent, name),
        Command::RenameFolder { folder, name } => rename_folder(desk, *folder, name),
        Command::MoveFolder { folder, parent } => move_folder(desk, *folder, *parent),
        Command::RemoveFolder { folder } => remove_folder(desk, *folder),
        Command::ListFolder { folder } => list_folder(desk, *folder),
        Command::NewMessage {
            folder,
            class,
            time,
            values,
        } => new_message(desk, *folder, class, *time, values),
        Command::SetProperty { message, value } => set_value(desk, *message, value),
        Command::UnsetProperty { message, tag } => unset_value(desk, *message, *tag),
        Command::GetProperty { message, tag } => get_value(desk, *message, *tag),
        Command::ListProperties { message } => list_details(desk, *message),
        Command::MoveMessage { message, folder } => move_message(desk, *message, *folder),
        Command::CopyMessage { message, folder } => copy_message(desk, *message, *folder),
        Command::RemoveMessage { message } => remove_message(desk, *message),
        Command::AddRecipient {
            message,
            kind,
            address,
            name,
        } => add_recipient(desk, *message, *kind, address, name),
        Command::RemoveRecipient { message, row } => remove_recipient(desk, *message, *row),
        Command::AddAttachment {
            message,
            name,
            held,
        } => attach(desk, *message, name, held),
        Command::AppendData {
            message,
            attachment,
            data,
        } => append(desk, *message, *attachment, data),
        Command::SetEmbedded {
            message,
            attachment,
            node,
        } => set_embedded(desk, *message, *attachment, node),
        Command::RemoveAttachment {
            message,
            attachment,
        } => detach(desk, *message, *attachment),
        Command::FetchData {
            message,
            attachment,
        } => fetch(desk, *message, *attachment),
        Command::NameProperty { guid, number } => name_property(desk, *guid, *number),
        Command::MakeSearch { .. } | Command::SetCriteria { .. } | Command::GetCriteria { .. } => {
            Err(Stop::Refused(CommandRefusal::Line))
        }
        Command::Save | Command::Quit => Ok(Coming::replied(Reply::without_data(
            desk.alloc(),
            LastLine::Done,
        ))),
    }
}
