// A judge: all memory that a listing needs, and the listing of the last text.
use crate::sheets::Sheet;
use crate::workspaces::Workspace;

pub mod judging;

#[derive(Drop)]
pub struct Judge {
    sheet: Sheet,
    workspace: Workspace,
}
