//! The words by which a shadow stack leads to another one or to a frame (Intel SDM volume 1, the chapter on CET,
//! and the Linux kernel's user shadow stacks). A pointer may be any 64-bit value.

ghost use Rattle.std.specs.Prelude.{◌≡◌};
ghost use Rattle.cet_page.specs.Tokens.{restore_token, restore_token_at, previous_token, is_previous_token, previous_ssp, saved_at, frame_word, is_frame_word, frame_ssp};

/// The restore token with which a shadow stack is taken again at this pointer.
pub fn restore_token(ssp: u64) -> u64
    ensures { result ≡ restore_token ssp }
{
    ssp | 1
}

/// The restore token that RSTORSSP looks for at an address.
pub fn restore_token_at(addr: u64) -> u64
    ensures { result ≡ restore_token_at addr }
{
    restore_token(addr.wrapping_add(8))
}

/// The previous-SSP token of a shadow stack that RSTORSSP leaves at this pointer.
pub fn previous_token(ssp: u64) -> u64
    ensures { result ≡ previous_token ssp }
{
    ssp | 3
}

/// Whether SAVEPREVSSP takes a word for a previous-SSP token: bit 1 is set.
pub fn is_previous_token(word: u64) -> bool
    ensures { result ≡ is_previous_token word }
{
    word / 2 % 2 == 1
}

/// The pointer of a previous-SSP token.
pub fn previous_ssp(word: u64) -> u64
    ensures { result ≡ previous_ssp word }
{
    word / 4 * 4
}

/// The address at which SAVEPREVSSP stores the restore token of a shadow stack that was left at this pointer.
pub fn saved_at(ssp: u64) -> u64
    ensures { result ≡ saved_at ssp }
{
    (ssp / 8 * 8).wrapping_sub(8)
}

/// The word of a signal frame that is pushed at this pointer.
pub fn frame_word(ssp: u64) -> u64
    ensures { result ≡ frame_word ssp }
{
    ssp | (1 << 63)
}

/// Whether rt_sigreturn takes a word for that of a signal frame: bit 63 is set.
pub fn is_frame_word(word: u64) -> bool
    ensures { result ≡ is_frame_word word }
{
    word >= 1 << 63
}

/// The pointer of a signal frame's word.
pub fn frame_ssp(word: u64) -> u64
    ensures { result ≡ frame_ssp word }
{
    word % (1 << 63)
}
