//! The owner of a base folder.
ghost use Rattle.std.specs.Prelude.{◌≡◌, ◌<◌, ◌⊎◌, IfErr, OnOk};
ghost use Rattle.base_folder_store.specs.Owned.{IsUnclaimed, with_mark};
ghost use Rattle.base_folder.specs.Ours.{IsOtherOwner, IsOurs, SameKey, address_of, number_of};

use crate::open_error::OpenError;
use base_folder_store::Folder;
use base_log::FolderIdentity;
use echo_addr::Address;

/// The number of a system in a folder: sixteen bits each of zone, net and node.
pub fn system_number(own: Address) -> u64
    ensures number { result ≡ number_of own }
    ensures recorded { address_of result ≡ own }
{
    own.zone as u64 * 0x1_0000_0000 + own.net as u64 * 0x1_0000 + own.node as u64
}

/// The address that has this number.
pub fn system_address(number: u64) -> Address
    ensures { result ≡ address_of number }
{
    Address {
        zone: (number / 0x1_0000_0000 % 0x1_0000) as u16,
        net: (number / 0x1_0000 % 0x1_0000) as u16,
        node: (number % 0x1_0000) as u16,
    }
}

/// Whether a folder of this owner is free for the system with this address: it is `NotOwner` if another one has it.
pub fn judge_owner(mark: FolderIdentity, own: Address) -> Result<(), OpenError>
    ensures ours { OnOk result ((mark.owner ≡ 0) ⊎ (mark.owner ≡ number_of own)) }
    ensures other { IfErr result (IsOtherOwner own mark) }
{
    let owner = mark.owner;
    if owner == 0 || owner == system_number(own) {
        return Ok(());
    }
    Err(OpenError::NotOwner(system_address(owner)))
}

/// A folder without messages also gets the key of these two halves. The next commit keeps both.
pub(crate) fn claim_for(folder: &mut Folder, own: Address, first: u64, second: u64)
    requires { (folder.old.recorded.mark.owner ≡ 0) ⊎ (folder.old.recorded.mark.owner ≡ number_of own) }
    ensures ours { IsOurs own folder.old folder.new }
    ensures only { folder.new ≡ with_mark folder.old folder.new.recorded.mark }
    ensures key { 0 < folder.old.keys → SameKey folder.old.recorded.mark folder.new.recorded.mark }
    ensures drawn { IsUnclaimed folder.old → folder.new.recorded.mark ≡ record { owner = number_of own; first = first; second = second } }
{
    let owner = system_number(own);
    if folder.owner().is_some() {
        return;
    }
    let mark = FolderIdentity {
        owner,
        first,
        second,
    };
    if !folder.claim(mark) {
        folder.adopt(owner);
    }
}
