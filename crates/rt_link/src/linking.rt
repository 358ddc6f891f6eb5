//! What is known of a system when its image is made.

use crate::laid::Layout;
use rt_graph::Proc;
use rt_match::Bindings;
use rt_object::Object;
use rt_templates::Support;

/// The objects of a system, the stack bricks of its tasks, to what its bricks are bound, where its parts lie, and the support code.
#[derive(Clone, Copy)]
pub struct Linking<'l> {
    pub objects: &'l [Object],
    pub stacks: &'l [Proc],
    pub bindings: &'l Bindings,
    pub layout: &'l Layout,
    pub support: &'l Support,
}
