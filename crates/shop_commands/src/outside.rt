//! All that a run works on.
ghost use Rattle.std.specs.Prelude.{◌≡◌, ◌≤◌, ◌∷◌, [], length, vec_capacity};

use shop_drain::{Post, Posts};

/// What a run works on besides its source and its sink. All parts come back from each call.
#[derive(Drop)]
pub struct Outside<D, C, Z, G> {
    /// FILE, the first file that the words name.
    pub disk: D,
    pub clock: C,
    pub sleeper: Z,
    pub agency: G,
    /// One for each further file that the words name, as many as `posts_needed` says.
    pub more: Posts<D, C, Z, G>,
}

/// The one further post, and the room that it stood in.
pub fn take_further<D: Drop, C: Drop, Z: Drop, G: Drop>(
    more: Posts<D, C, Z, G>,
) -> (Post<D, C, Z, G>, Vec<Post<D, C, Z, G>>)
    requires { length more ≡ 1 }
    ensures one { more ≡ result.0 ∷ [] }
    ensures empty { result.1.items ≡ [] }
    ensures room { 1 ≤ vec_capacity result.1 }
{
    let mut room = more.into_vec();
    let Some(post) = room.pop() else {
        unreachable!()
    };
    (post, room)
}

/// This one as the one further post, in the room of the one that was taken.
pub fn put_further<D, C, Z, G>(
    post: Post<D, C, Z, G>,
    mut room: Vec<Post<D, C, Z, G>>,
) -> Posts<D, C, Z, G>
    requires empty { room.items ≡ [] }
    requires room { 1 ≤ vec_capacity room }
    ensures { result ≡ post ∷ [] }
{
    room.push_reserved(post);
    Posts::of(room)
}
