//! The place of a new shadow stack: whether it can be drawn.

ghost use Rattle.std.specs.Prelude.{◌≡◌, ◌≤◌};
ghost use Rattle.cet_words.specs.Layout.{most_stack_pages};
ghost use Rattle.cet_page.specs.MapShadowStack.{can_draw};

use cet_words::LAST_AREA_PAGE;

/// Whether so many pages fit above those that were drawn before.
pub fn can_draw(pages: u64, drawn: u64) -> bool
    requires { pages ≤ most_stack_pages }
    ensures { result ≡ can_draw pages drawn }
{
    let last = u64::from(LAST_AREA_PAGE);
    drawn <= last && drawn + pages + 1 <= last
}
