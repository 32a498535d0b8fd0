//! A reply that was written is read again.
ghost use Rattle.std.specs.Prelude.{◌≡◌, Ok};
ghost use Rattle.dap_messages.specs.declared.command_value.CommandValue.{CommandValue};
ghost use Rattle.dap_messages.specs.Commands.{IsCommand};
ghost use Rattle.dap_messages.specs.Replies.{ReplyValue, Answers, IsReply, reply_bytes};
ghost use Rattle.dap_replies.specs.ReplyReading.{reply_read};
ghost use Rattle.dap_replies.specs.ReplyViews.{reply_shown};

/// A reply that a command may get is in the ranges of a reply, so `write_reply` writes it, and its
/// bytes are read again as what it says.
pub fn written_reply_is_read()
    ensures in_range { (c : CommandValue) (a : ReplyValue) → IsCommand c → Answers c a → IsReply a }
    ensures read { (c : CommandValue) (a : ReplyValue) → IsCommand c → Answers c a
        → reply_read c (reply_bytes a) ≡ Ok (reply_shown a) }
{}
