// Laws of the definitions: each is the contract of a function with an empty body.
ghost use Rattle.std.specs.Prelude.{◌≢◌, ℕ, List, Err};
ghost use Rattle.comm_messages.specs.Message.{message, message_by_parts};
ghost use Rattle.comm_messages.specs.ReadAgain.{ObjectSaysMessage, TextIsItsObject, TextIsReadAgain};
ghost use Rattle.comm_messages.specs.declared.fault.MessageFault.TheVariants.{NotWhole};
ghost use Rattle.comm_value.specs.declared.from_json.Numbers.{Numbers};

/// The round trip. The text of [`crate::write_message`] parses as the JSON object that `specs/Text` defines, a
/// `comm_info_reply` included. [`crate::read_message`] reads a `comm_open`, `comm_msg` or `comm_close` from it with
/// equal client, id, target name, version, data and buffers; where a number in the data isn't whole,
/// [`crate::read_message_with`] does, with [`comm_value::Numbers::Any`]. Both hold where the JSON nests at most 127
/// deep: no deeper JSON is read.
pub fn written_is_read_again()
    ensures object { ObjectSaysMessage }
    ensures json { TextIsItsObject }
    ensures text { TextIsReadAgain }
{}

/// With [`comm_value::Numbers::Any`] no line is NotWhole, nor are the parts of a message.
pub fn any_number_is_read()
    ensures line { (clients : ℕ) (line : List ℕ) → message clients Numbers.Any line ≢ Err NotWhole }
    ensures parts { (clients client : ℕ) (header metadata content : List ℕ)
        (buffers : List (List ℕ)) → message_by_parts clients Numbers.Any client header metadata
        content buffers ≢ Err NotWhole }
{}
