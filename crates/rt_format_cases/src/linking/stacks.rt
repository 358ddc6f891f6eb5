//! The stacks of objects.

use rt_object::{Brick, BrickKind, Content, Object};

/// How many words the ENT stack of a name has; 0 where there is none.
pub fn words_of_stack(objects: &[Object], name: &[u8]) -> u16 {
    for object in objects {
        for brick in object.parts().bricks.as_slice() {
            if let Some(words) = stack_words(brick, name) {
                return words;
            }
        }
    }
    0
}

fn stack_words(brick: &Brick, name: &[u8]) -> Option<u16> {
    match &brick.kind {
        BrickKind::Ent(Content::Stack(words)) if brick.name.as_slice() == name => Some(*words),
        _ => None,
    }
}
