//! Laws about lists of ids. Each is the contract of a function that does nothing.
ghost use Rattle.std.specs.Prelude.{◌≡◌, ◌≤◌, ◌↔◌, List, [], None, Option, Some, length, true, ℕ};
ghost use Rattle.base_file.specs.Base.{Base, IsBase, is_known};
ghost use Rattle.{cmd_status.specs.declared.status.Status.Status, echo_addr.specs.declared.address.Address.Address, cmd_repair.specs.Rest.{HaveByteIds, SendsRest}};
ghost use Rattle.{echo_filed.specs.declared.key.Key.TheVariants.ById, echo_links.specs.Links.LinkFile, echo_steps.specs.declared.counting.CountedPacket.CountedPacket};
ghost use Rattle.{echo_text.specs.Lines.is_tag, model_run.specs.Repair.is_named, model_steps.specs.declared.stamp.Stamp.Stamp};
ghost use Rattle.cmd_repair.specs.{IdList.{IsIdList, IsPrintedList, ListsIds, wrong_line}, Ids.{IsWordOfId, is_id_word}, Words.most_messages};
ghost use Rattle.cmd_repair.specs.{declared.reading.Stage.TheVariants.Start, IdsListed.{AreIdsListed, area_ids, area_messages}, Repair.SendsPacket};

/// A list has no wrong line exactly if its lines are those of an area and its ids, in any order and perhaps twice.
pub fn right_lists_are_printed_ones()
    ensures { (area : List ℕ) (lines : List (List ℕ)) → (wrong_line area 1 Start lines ≡ None) ↔ IsPrintedList area lines }
{}

/// A word is taken exactly if it is the printed form of an id.
pub fn words_are_those_of_ids()
    ensures { (word : List ℕ) → (is_id_word word ≡ true) ↔ IsWordOfId word }
{}

/// What `send_all` sends is the packet of the model: of all messages, or of those that the list does not name by its ids.
pub fn repairs_send_the_rest()
    ensures all { (file : LinkFile) (stamp : Stamp) (area : List ℕ) (to : Address) (base : Base) (old new : Option (List ℕ)) (counted : CountedPacket)
        → SendsPacket file stamp area to 0 None base old new counted → SendsRest file stamp area to [] base old new }
    ensures listed { (file : LinkFile) (stamp : Stamp) (area : List ℕ) (to : Address) (base : Base) (old new : Option (List ℕ)) (counted : CountedPacket)
        (list : List ℕ) (words ids : List (List ℕ)) → ListsIds area list ids → IsIdList area list words → HaveByteIds base.messages
        → SendsPacket file stamp area to 0 (Some words) base old new counted → SendsRest file stamp area to ids base old new }
{}

/// What `list_ids` prints of a base is a list that is taken. It names just the ids of the area's messages, which are
/// those that the base knows.
pub fn printed_lists_name_what_a_base_knows()
    ensures lists { (area list : List ℕ) (base : Base) (status : Status) → is_tag area ≡ true → IsBase base.messages base.cursor → HaveByteIds base.messages
        → length (area_messages area base.messages) ≤ most_messages → AreIdsListed area base list status → ListsIds area list (area_ids area base.messages) }
    ensures knows { (area id : List ℕ) (base : Base) → is_named (area_ids area base.messages) (Some id) ≡ is_known base.messages (ById area id) }
{}
