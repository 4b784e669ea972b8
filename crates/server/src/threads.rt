//! Types that may go to other threads, and those that threads may share. The check proves it of these types at the calls here, of which
//! none is made at run time. So a type that ceases to be so is refused here, and not first in the crate of someone who starts threads.

use crate::by_hand::ByHand;
use crate::client::ClientSession;
use crate::planned::PlannedRequest;
use crate::queries::Queries;
use gq_check::{CheckedDocument, Plan, PreparedDocument};
use plan_requests::{DocumentCache, Server};
use std::marker::{Send, Sync};

fn goes<T: Send>(_: &T) {}

fn is_shared<T: Sync>(_: &T) {}

fn server_goes(server: &Server) {
    goes(server)
}

fn server_is_shared(server: &Server) {
    is_shared(server)
}

fn plan_goes(plan: &Plan) {
    goes(plan)
}

fn plan_is_shared(plan: &Plan) {
    is_shared(plan)
}

fn prepared_document_goes(kept_document: &PreparedDocument) {
    goes(kept_document)
}

fn prepared_document_is_shared(kept_document: &PreparedDocument) {
    is_shared(kept_document)
}

fn checked_goes(checked: &CheckedDocument) {
    goes(checked)
}

fn document_cache_goes(kept_documents: &DocumentCache) {
    goes(kept_documents)
}

fn client_goes<S: Send>(client: &ClientSession<S>) {
    goes(client)
}

fn queries_go(queries: &Queries) {
    goes(queries)
}

fn planned_goes(planned: &PlannedRequest) {
    goes(planned)
}

fn by_hand_goes<S: Send>(by_hand: &ByHand<S>) {
    goes(by_hand)
}
