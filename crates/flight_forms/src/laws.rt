//! What the forms of a flight do, in terms of accesses made one at a time.
ghost use Rattle.std.specs.Prelude.{◌*◌, ◌+◌, ◌-◌, ◌/◌, ◌∷◌, ◌≡◌, ◌<◌, ◌≤◌, ◌^◌, List, None, Some, [], false, length, take, true, ℕ};
ghost use Rattle.std.specs.List.{AllByRecursion};
ghost use Rattle.target_machine.specs.Attempt.{bank};
ghost use Rattle.target_machine.specs.InRange.{IsInRange};
ghost use Rattle.target_machine.specs.declared.access.RegAccess.{RegAccess};
ghost use Rattle.dap_messages.specs.Replies.{Answers};
ghost use Rattle.dap_messages.specs.Replies as reply;
ghost use Rattle.dap_messages.specs.Responses.{code_of};
ghost use Rattle.dap_messages.specs.declared.request.Response.{Response};
ghost use Rattle.dap_transfer.specs.Block.{block_result};
ghost use Rattle.dap_transfer.specs.State.{TransferState};
ghost use Rattle.dap_transfer.specs.Transfer.{transfer_result};
ghost use Rattle.flight_forms.specs.Chains.{AllTaken, DoesChain, IsGuardOpen, all_of, chain_replies, joined_as};
ghost use Rattle.flight_forms.specs.Flights.{DoesBlock, DoesTransfer, IsPartOf, Part, part_of, words_of};
ghost use Rattle.flight_forms.specs.Forms.{all_write_drw, capacity, fits_block, fits_guarded, fits_transfer, form_of, parts_of};
ghost use Rattle.flight_forms.specs.Packets.{AnswerChain, FitChain, FitsPacket, block_answer, block_command, guarded_command, transfer_answer, transfer_command};
ghost use Rattle.flight_forms.specs.Packing.{AreTaken, AreWords, payload, requests_for};
ghost use Rattle.flight_forms.specs.Polls.{IsPollPacket, PollsAtOnce, poll_packet};
ghost use Rattle.flight_forms.specs.declared.form.Form.{Form};
ghost use Rattle.flight_forms.specs.declared.form.Form.TheVariants as Form;

/// One Transfer makes the first of its accesses, and its reply shows how many, and what they gave.
pub fn a_transfer_does_a_part()
    ensures { (p : TransferState) (accesses : List RegAccess) → AreTaken accesses → p.line.target.sticky ≡ false → DoesTransfer p accesses }
{}

/// So does a block of writes of DRW, which does what the Transfer of the same writes does; its reply
/// gives no words.
pub fn a_block_does_a_part()
    ensures { (p : TransferState) (size : ℕ) (accesses : List RegAccess) → fits_block size accesses ≡ true → p.line.target.sticky ≡ false → DoesBlock p accesses }
{}

/// A guarded chain makes the first of its accesses, and its replies show how many, and what they gave. A command makes accesses only where
/// the one before came to its end, with its last write checked.
pub fn a_chain_does_a_part()
    ensures { (p : TransferState) (parts : List (List RegAccess)) → AllTaken parts → IsGuardOpen p → DoesChain p parts }
{}

/// The parts of a chain are its accesses, in order. Each of them has an access, and what is so of
/// each access of the whole is so of each access of a part.
pub fn parts_are_the_flight()
    ensures whole { (size : ℕ) (accesses : List RegAccess) → all_of (parts_of size accesses) ≡ accesses }
    ensures some { (size : ℕ) (accesses : List RegAccess) → AllByRecursion (λ part. 1 ≤ length part) (parts_of size accesses) }
    ensures taken { (size : ℕ) (accesses : List RegAccess) → AreTaken accesses → AllTaken (parts_of size accesses) }
    ensures words { (size : ℕ) (accesses : List RegAccess) → AreWords accesses → AllByRecursion AreWords (parts_of size accesses) }
{}

/// What fits a form fits its packets, with its command and the longest reply. The forms are a block, one Transfer, a guarded Transfer with
/// the two bytes before it, and each part of a chain.
pub fn what_fits_can_be_sent()
    ensures block { (size : ℕ) (accesses : List RegAccess) → size < 2 ^ 16 → AreWords accesses
        → fits_block size accesses ≡ true → FitsPacket size 0 (block_command accesses) }
    ensures transfer { (size : ℕ) (a : RegAccess) (rest : List RegAccess) → AreWords (a ∷ rest)
        → fits_transfer size (a ∷ rest) ≡ true → FitsPacket size 0 (transfer_command (a ∷ rest)) }
    ensures guarded { (size : ℕ) (accesses : List RegAccess) → AreWords accesses → fits_guarded size accesses ≡ true → FitsPacket size 2 (guarded_command accesses) }
    ensures chain { (size : ℕ) (accesses : List RegAccess) → 64 ≤ size → size ≤ 1024 → AreWords accesses → FitChain size (parts_of size accesses) }
{}

/// What a reply shows of the accesses of its command, where it is one that the command may get, whatever the probe did. All are confirmed
/// where it is OK, and else fewer. So it is of two parts in a row.
pub fn what_a_reply_shows()
    ensures block { (size : ℕ) (accesses : List RegAccess) (n : ℕ) (x : Response) → fits_block size accesses ≡ true
        → Answers (block_command accesses) (reply.Block n (code_of x))
        → IsPartOf (length accesses) (part_of (take n (requests_for false accesses)) x []) }
    ensures transfer { (accesses : List RegAccess) (n : ℕ) (x : Response) (words : List ℕ) → AreTaken accesses
        → Answers (transfer_command accesses) (reply.Transfer n (code_of x) words)
        → IsPartOf (length accesses) (part_of (take n (requests_for false accesses)) x words) }
    ensures guarded { (accesses : List RegAccess) (n : ℕ) (x : Response) (words : List ℕ) → AreTaken accesses → 1 ≤ length accesses
        → Answers (guarded_command accesses) (reply.Transfer n (code_of x) words) → IsPartOf (length accesses) (part_of (take (n - 2) (payload accesses)) x words) }
    ensures joined { (m n : ℕ) (a b : Part) → IsPartOf m a → IsPartOf n b → IsPartOf (m + n) (joined_as a.response a b) }
{}

/// How many accesses a form holds. A form holds each single one, and never more than 255 for each packet. Where none holds a list, this
/// list has more than the capacity, and where it is writes of DRW more than a block.
pub fn how_many_fit()
    ensures single { (size count : ℕ) (a : RegAccess) → 64 ≤ size → size ≤ 1024 → form_of size count (a ∷ []) ≡ Some Form.Transfer }
    ensures full { (size count : ℕ) (accesses : List RegAccess) → 21 ≤ size → size ≤ 1024 → form_of size count accesses ≡ None → capacity size count < length accesses }
    ensures writes { (size count : ℕ) (accesses : List RegAccess) → 64 ≤ size → size ≤ 1024 → 1 ≤ length accesses → all_write_drw accesses ≡ true
        → form_of size count accesses ≡ None → (size - 5) / 4 < length accesses }
    ensures most { (size count : ℕ) (accesses : List RegAccess) (f : Form) → 64 ≤ size → size ≤ 1024 → 1 ≤ count
        → form_of size count accesses ≡ Some f → length accesses ≤ 255 * count }
{}

/// The reply to each form is one that its commands may get. The probe lets a guarded command make its accesses, or STICKYERR is clear where
/// there is no guard. The target has numbers in their ranges.
pub fn replies_may_come()
    ensures block { (p : TransferState) (size : ℕ) (accesses : List RegAccess) → fits_block size accesses ≡ true → p.line.target.sticky ≡ false
        → Answers (block_command accesses) (block_answer (block_result p 0x0D (words_of accesses))) }
    ensures transfer { (p : TransferState) (accesses : List RegAccess) → AreTaken accesses → AreWords accesses → p.line.target.sticky ≡ false → IsInRange p.line.target
        → Answers (transfer_command accesses) (transfer_answer (transfer_result p (requests_for false accesses))) }
    ensures chain { (p : TransferState) (parts : List (List RegAccess)) → AllTaken parts → AllByRecursion AreWords parts → IsGuardOpen p → IsInRange p.line.target
        → AnswerChain parts (chain_replies p parts) }
{}

/// A portion of a poll in one packet is the polled reads, one at a time. Its replies say whether the register matched, and after it the
/// match mask and match retry are 0. This needs DPBANKSEL 0, so that address 0x4 is CTRL/STAT, whose reads never wait.
pub fn a_poll_is_its_reads()
    ensures reads { (p : TransferState) (retry mask requested turns : ℕ) → bank p.line.target ≡ 0 → 1 ≤ turns → PollsAtOnce p retry mask requested turns }
    ensures fits { (idle retry mask requested turns : ℕ) → idle < 2 ^ 8 → retry < 2 ^ 16 → mask < 2 ^ 32 → requested < 2 ^ 32 → turns ≤ 2 ^ 16
        → IsPollPacket (poll_packet idle retry mask requested turns) }
{}
