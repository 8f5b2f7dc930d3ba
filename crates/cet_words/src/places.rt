//! Where pages and words lie: the machine's numbers by their names, and the place of an address.

ghost use Rattle.std.specs.Prelude.{◌≡◌, ◌<◌, ◌^◌, IfSome};
ghost use Rattle.cet_words.specs.Layout.{page_count, first_entry_word, page_at, word_at, pages_of, page_up, pend_word, action_word, token, token_page, token_word};

/// The first address of the image range.
pub const IMAGE_START: u64 = 0x400000;

/// The address past the image range.
pub const IMAGE_END: u64 = 0x800000;

/// The first address of the main stack.
pub const STACK_START: u64 = 0x7ffc0000;

/// The address past the main stack.
pub const STACK_END: u64 = 0x80000000;

/// The first address of the mmap area.
pub const MMAP_START: u64 = 0x1_0000_0000;

/// The address past the mmap area.
pub const MMAP_END: u64 = 0x1_0040_0000;

/// The first address of the shadow area.
pub const SHADOW_START: u64 = 0x2_0000_0000;

/// The address past the shadow area.
pub const SHADOW_END: u64 = 0x2_0040_0000;

/// The first address of the kernel area.
pub const KERNEL_START: u64 = 0xffff_8000_0000_0000;

/// The address past the kernel area.
pub const KERNEL_END: u64 = 0xffff_8000_0001_2000;

/// The first address of thread 0's shadow stack: pages 1 to 8 of the shadow area.
pub const FIRST_REGION_START: u64 = 0x2_0000_1000;

/// The address past thread 0's shadow stack.
pub const FIRST_REGION_END: u64 = 0x2_0000_9000;

/// The size of a thread's first shadow stack, in bytes: eight pages.
pub const THREAD_REGION_SIZE: u64 = 0x8000;

/// The address past the last shadow stack: the last page of the shadow area is in none.
pub const LAST_REGION_END: u64 = 0x2_003f_f000;

/// How many pages the shadow area has, and the mmap area too.
pub const AREA_PAGES: u32 = 1024;

/// The last page of the shadow area, by its number there: no draw goes past it.
pub const LAST_AREA_PAGE: u32 = 1023;

/// A shadow stack has at most so many pages: the area's without one below it and the last.
pub const MOST_STACK_PAGES: u32 = 1022;

/// How many threads there are at most.
pub const THREAD_LIMIT: u64 = 32;

/// The number of the main stack's first page. The image's pages are those before it.
pub const FIRST_STACK_PAGE: u32 = 1024;

/// The number of the mmap area's first page.
pub const FIRST_MMAP_PAGE: u32 = 1088;

/// The number of the shadow area's first page.
pub const FIRST_SHADOW_PAGE: u32 = 2112;

/// The number of the kernel area's first page.
pub const FIRST_KERNEL_PAGE: u32 = 3136;

/// The number of pages.
pub const PAGE_COUNT: u32 = 3154;

/// The number of the main stack's first word. The image's words are those before it.
pub const FIRST_STACK_WORD: u32 = 524_288;

/// The number of the shadow area's first word.
pub const FIRST_SHADOW_WORD: u32 = 1_081_344;

/// The number of the kernel area's first word.
pub const FIRST_KERNEL_WORD: u32 = 1_605_632;

/// The number of the word of page 0's entry.
pub const FIRST_ENTRY_WORD: u32 = 1_614_848;

/// The number of words.
pub const WORD_COUNT: u32 = 1_618_002;

/// The kernel's word EXIT: whether the process is to end, and how.
pub const EXIT_WORD: u32 = 1_605_632;

/// The kernel's word NEXT_THREAD: the number of the next thread to be born.
pub const NEXT_THREAD_WORD: u32 = 1_605_633;

/// The kernel's word DRAW_SHADOW: how many pages of the shadow area have been drawn.
pub const DRAW_SHADOW_WORD: u32 = 1_605_634;

/// The kernel's word DRAW_MMAP: how many pages of the mmap area have been drawn.
pub const DRAW_MMAP_WORD: u32 = 1_605_635;

/// The first of the kernel's words of the actions of signals.
const FIRST_ACTION_WORD: u32 = 1_605_696;

/// What the kernel's entry leaves below a held token: a return address in the kernel's half, as a call there
/// would leave it. No page of the machine has it, so it is no token and no address of a program.
pub const KERNEL_RETURN: u64 = 0xffff_8000_0010_0000;

/// The number of the page that holds an address, below 3,154, or none where no range of the machine
/// holds it.
#[tactic(auto, unfolding(crate::specs::Layout::page_at))]
pub fn page_of(addr: u64) -> Option<u32>
    ensures page { result ≡ page_at addr }
    ensures range { IfSome result (λ page. page < page_count) }
{
    match addr {
        IMAGE_START..IMAGE_END => Some(((addr - IMAGE_START) / 4096) as u32),
        STACK_START..STACK_END => Some(FIRST_STACK_PAGE + ((addr - STACK_START) / 4096) as u32),
        MMAP_START..MMAP_END => Some(FIRST_MMAP_PAGE + ((addr - MMAP_START) / 4096) as u32),
        SHADOW_START..SHADOW_END => Some(FIRST_SHADOW_PAGE + ((addr - SHADOW_START) / 4096) as u32),
        KERNEL_START..KERNEL_END => Some(FIRST_KERNEL_PAGE + ((addr - KERNEL_START) / 4096) as u32),
        _ => None,
    }
}

/// The number of the word at an address, below 1,614,848, or none where the address isn't a multiple
/// of 8 or no range of the machine holds it.
#[tactic(auto, unfolding(crate::specs::Layout::word_at))]
pub fn word_of(addr: u64) -> Option<u32>
    ensures word { result ≡ word_at addr }
    ensures range { IfSome result (λ word. word < first_entry_word) }
{
    if addr % 8 != 0 {
        return None;
    }
    let page = page_of(addr)?;
    Some(512 * page + ((addr % 4096) / 8) as u32)
}

/// How many whole pages hold so many bytes.
pub fn pages_of(bytes: u64) -> u64
    ensures { result ≡ pages_of bytes }
{
    bytes.div_ceil(4096)
}

/// So many bytes, rounded up to whole pages.
pub fn page_up(bytes: u64) -> u64
    requires { bytes < 2 ^ 63 }
    ensures { result ≡ page_up bytes }
{
    pages_of(bytes) * 4096
}

/// The kernel's word PEND of a thread: its pending signals.
pub fn pend_word(thread: u8) -> u32
    ensures { result ≡ pend_word thread }
{
    1_605_664 + u32::from(thread)
}

/// The kernel's word of a signal's handler. The three words after it are its flags, restorer and mask.
pub fn action_word(signal: u8) -> u32
    ensures { result ≡ action_word signal }
{
    FIRST_ACTION_WORD + 4 * u32::from(signal)
}

/// The address of the token of supervisor stack k, which is the token itself when free.
pub fn token(k: u8) -> u64
    ensures { result ≡ token k }
{
    0xffff_8000_0000_2ff8 + 8192 * u64::from(k)
}

/// The number of the page of supervisor stack k.
pub fn token_page(k: u8) -> u32
    requires { k < 8 }
    ensures { result ≡ token_page k }
{
    3138 + 2 * u32::from(k)
}

/// The number of the word of the token of supervisor stack k.
pub fn token_word(k: u8) -> u32
    requires { k < 8 }
    ensures { result ≡ token_word k }
{
    1_607_167 + 1024 * u32::from(k)
}
